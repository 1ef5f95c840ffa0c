// The blocks of a step about data among the instructions: pools and inline tables that the walk skips, tables that it finds.
//
// That a slice holds its map stays a `requires`, here as in the other blocks: a list is lent to all blocks of a step, and what one block writes
// the next reads, so the rows are made of it where they are read. That the instruction's end is below 2^32 stays one too: it is of two values,
// the state's address and the instruction's size.
#![tactic(auto)]

ghost use Rattle.std.specs.Prelude.{◌≡◌, ◌+◌, ◌<◌, ◌^◌, ltb, leb};
ghost use Rattle.analysis.specs.JumpTable.{table_end};
ghost use Rattle.base.specs.Choice.{both};
ghost use Rattle.rows.specs.Map.{Held};
ghost use Rattle.context.specs.Context.{pool_row, table_row};
ghost use Rattle.context.specs.Blocks.{skip_pool, skip_inline_table, raised_to_table, jump_table, inline_table};
ghost use Rattle.context.specs.State.{Does, same, pools_in, jump_tables_in, inline_tables_in};
ghost use Rattle.context.specs.declared.Then.TheVariants.{Refuses};
ghost use Rattle.tables.specs.Tables.{Finds, skipped, table_data, EnteringFound, unless_refused};

use analysis::jump_table::JumpTableStateArm;
use arm::Ins;
use base::refusal::Refusal;
use context::{Pools, State, Stepped, TABLE_ROW, Tables, Then, assign};

fn refuses(refusal: Refusal) -> Then
    ensures { result ≡ Refuses refusal 0 }
{
    Then::Refuses {
        refusal,
        register: 0,
    }
}

// The walk goes on behind the data at its address, which end there or leave 32 bits, where there are any.
// The state is built once, behind all choices: arms that each hand back a state would copy the whole of it.
fn skip(s: State, data_end: Result<Option<u32>, Refusal>) -> Stepped
    ensures { Does same same (skipped data_end) s result }
{
    let (then, next) = match data_end {
        Ok(None) => (Then::On, s.next),
        Ok(Some(end)) => (Then::Goes, end),
        Err(refusal) => (refuses(refusal), s.next),
    };
    Stepped {
        then,
        state: assign::goto(s, next),
    }
}

pub fn skip_pool(s: State, pools: &[u32]) -> Stepped
    requires { Held pool_row s.counts.pools pools.now × (s.progress.address + 4 < 2 ^ 32) }
    ensures { Does (pools_in pools.now) (pools_in pools.now) skip_pool s result }
{
    let end = s.progress.address + 4;
    let pools = Pools::new(pools, s.counts.pools);
    let is_pool = pools.contains(s.progress.address);
    skip(s, Ok(is_pool.then_some(end)))
}

// Whether the table from `start` on holds the address.
#[tactic(auto, using(std::proofs::lemmas::Bool::Decides::nat_tests))]
fn is_within(start: u32, size: u32, address: u32) -> bool
    ensures { result ≡ both (leb start address) (ltb address (start + size)) }
{
    start <= address && address - start < size
}

// The first table that holds the address.
pub fn inline_table_at(inline_tables: &Tables, address: u32) -> Option<[u32; TABLE_ROW]>
    ensures { Finds address inline_tables.now.rows.now result }
{
    inline_tables
        .rows
        .iter()
        .find(|table| is_within(table[0], table[1], address))
        .copied()
}

// A table from `start` on, as data.
#[tactic(auto, using(std::proofs::lemmas::Bool::Decides::nat_tests))]
fn table_data(start: u32, size: u32) -> Result<Option<u32>, Refusal>
    ensures { result ≡ table_data (start + size) }
{
    let end = start.checked_add(size).ok_or(Refusal::Beyond32Bits)?;
    Ok(Some(end))
}

pub fn skip_inline_table(s: State, inline_tables: &[u32]) -> Stepped
    requires { Held table_row s.counts.inline_tables inline_tables.now }
    ensures { Does (inline_tables_in inline_tables.now) (inline_tables_in inline_tables.now) skip_inline_table s result }
{
    let inline_tables = Tables::new(inline_tables, s.counts.inline_tables);
    let data_end = match inline_table_at(&inline_tables, s.progress.address) {
        Some(table) => table_data(table[0], table[1]),
        None => Ok(None),
    };
    skip(s, data_end)
}

// The table that a machine found enters its list of `count` tables, whose count then comes back.
#[inline(always)]
fn enter_found(
    tables: &mut [u32],
    count: usize,
    found: Option<(u32, u32)>,
) -> Result<usize, Refusal>
    requires { Held table_row count tables.old }
    ensures { EnteringFound count tables.old found result tables.new }
{
    match found {
        Some((address, size)) => Tables::enter(tables, count, [address, size]),
        None => Ok(count),
    }
}

// The end of a jump table raises the last conditional destination, unless the step is refused already.
fn raise_to_table(s: State, machine: JumpTableStateArm, refusal: Option<Refusal>) -> Stepped
    ensures { Does same same (λ c. unless_refused refusal (raised_to_table (table_end machine) c)) s result }
{
    let table = s.progress.jump_table_end_address;
    let (then, raised, table) = match machine.table_end_address() {
        Ok(Some(end)) => (Then::On, end, end),
        Ok(None) => (Then::On, 0, table),
        Err(refusal) => (refuses(refusal), 0, table),
    };
    Stepped {
        then: refusal.map_or(then, refuses),
        state: assign::table_to(assign::raise(s, raised), table),
    }
}

// The choices give small values, and the state is built behind them, as in `skip`. One result of the next state and the count, with `?`, was
// tried here and in `inline_table`: 26 instructions more for a step of plain code.
pub fn jump_table(s: State, ins: Ins, jump_tables: &mut [u32]) -> Stepped
    requires { Held table_row s.counts.jump_tables jump_tables.old }
    ensures { Does (jump_tables_in jump_tables.old) (jump_tables_in jump_tables.new) (jump_table ins) s result }
{
    let machine = s.machines.jump_table;
    let before = s.counts.jump_tables;
    let (next, count, refusal) = match machine.handle(s.progress.address, ins) {
        Ok((next, found)) => {
            let table = found.map(|table| (table.address, table.size));
            match enter_found(jump_tables, before, table) {
                Ok(count) => (next, count, None),
                Err(refusal) => (next, before, Some(refusal)),
            }
        }
        Err(refusal) => (machine, before, Some(refusal)),
    };
    let t = assign::jump_table_to(assign::count_jump_tables(s, count), next);
    raise_to_table(t, next, refusal)
}

pub fn inline_table(s: State, ins: Ins, inline_tables: &mut [u32]) -> Stepped
    requires { Held table_row s.counts.inline_tables inline_tables.old }
    ensures { Does (inline_tables_in inline_tables.old) (inline_tables_in inline_tables.new) (inline_table ins) s result }
{
    let machine = s.machines.inline_table;
    let before = s.counts.inline_tables;
    let (next, count, refusal) = match machine.handle(false, s.progress.address, ins) {
        Ok(next) => {
            let table = next.get_table().map(|table| (table.address, table.size));
            match enter_found(inline_tables, before, table) {
                Ok(count) => (next, count, None),
                Err(refusal) => (next, before, Some(refusal)),
            }
        }
        Err(refusal) => (machine, before, Some(refusal)),
    };
    Stepped {
        then: refusal.map_or(Then::On, refuses),
        state: assign::inline_table_to(assign::count_inline_tables(s, count), next),
    }
}
