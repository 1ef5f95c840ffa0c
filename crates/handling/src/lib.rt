// The blocks of handle_ins_inner one after another, but for what touches the registers' arrays, which `handle_ins` does between and behind the
// two functions here. Each is lent the lists that its blocks touch, one by one. The list of calls is not lent: what is asked of it is told before,
// and the call that is to be put in it comes back in the state.
#![tactic(auto)]

ghost use Rattle.std.specs.Prelude.{◌≡◌, None, ◌+◌, ◌<◌, ◌^◌, length};
ghost use Rattle.rows.specs.Map.{Held};
ghost use Rattle.context.specs.Context.{label_row, pool_row, table_row};
ghost use Rattle.context.specs.Blocks.{to_return, from_return};
ghost use Rattle.context.specs.State.{Does, Puts, PutsIf, ToldOfCalls, registers_in, forgotten_by, loaded_in, labels_in, pools_in, jump_tables_in, inline_tables_in, module_in, options_in};
ghost use Rattle.handling.specs.Handling.{to_load, from_load};

use arm::Ins;
use branches::{branch, branch_outside, entry_after_branch, final_return, function_call};
use context::{Loaded, Module, Parsed, State, Stepped, assign, is_on};
use registers::Registers;
use tables::{inline_table, jump_table, skip_inline_table, skip_pool};
use values::{check_defined, illegal_code, mark_pool, pool_load};
use walk::Options;

// Up to in_conditional_block and is_return. What the instruction writes is forgotten by the caller, where this went on.
#[inline(always)]
pub fn to_return(
    s: State,
    registers: &Registers,
    ins: Ins,
    pools: &mut [u32],
    jump_tables: &mut [u32],
    inline_tables: &[u32],
) -> Stepped
    requires { Held pool_row s.counts.pools pools.old × Held table_row s.counts.jump_tables jump_tables.old × Held table_row s.counts.inline_tables inline_tables.now × (s.progress.address + 4 < 2 ^ 32) }
    ensures { Does (λ l. registers_in registers.now (pools_in pools.old (jump_tables_in jump_tables.old (inline_tables_in inline_tables.now l)))) (λ l. registers_in (forgotten_by result.then ins registers.now) (pools_in pools.new (jump_tables_in jump_tables.new (inline_tables_in inline_tables.now l)))) (to_return ins) s result }
{
    let r1 = skip_pool(s, pools);
    if !is_on(r1) {
        return r1;
    }
    let r2 = skip_inline_table(r1.state, inline_tables);
    if !is_on(r2) {
        return r2;
    }
    let r3 = jump_table(r2.state, ins, jump_tables);
    if !is_on(r3) {
        return r3;
    }
    let r4 = illegal_code(r3.state, ins);
    if !is_on(r4) {
        return r4;
    }
    let r5 = branch_outside(r4.state, ins);
    if !is_on(r5) {
        return r5;
    }
    let t = r5.state;
    mark_pool(t, registers, ins, pools);
    assign::on(t)
}

// From there to the pool load. No call has been put yet.
#[inline(always)]
fn to_load(
    m: Module,
    s: State,
    parsed: Parsed,
    inside: bool,
    returns: bool,
    is_called_next: bool,
    labels: &mut [u32],
    pools: &[u32],
) -> Stepped
    requires { Held 1 (length m.starts.now) m.starts.now × Held label_row s.counts.labels labels.old × Held pool_row s.counts.pools pools.now × (s.progress.address + parsed.size < 2 ^ 32) × (s.call ≡ None) }
    ensures { PutsIf (ToldOfCalls parsed.size inside returns is_called_next s) (λ l. module_in m.entry (labels_in labels.old (pools_in pools.now l))) (λ l. module_in m.entry (labels_in labels.new (pools_in pools.now l))) (to_load parsed.ins parsed.word parsed.size inside returns) s result }
{
    let r1 = final_return(m, s, parsed, inside, returns, is_called_next);
    if !is_on(r1) {
        return r1;
    }
    let r2 = entry_after_branch(r1.state, parsed.ins, inside);
    if !is_on(r2) {
        return r2;
    }
    branch(m, r2.state, parsed, inside, labels, pools)
}

// Behind the pool load.
#[inline(always)]
fn from_load(
    o: Options,
    s: State,
    parsed: Parsed,
    returns: bool,
    inline_tables: &mut [u32],
) -> Stepped
    requires { Held table_row s.counts.inline_tables inline_tables.old }
    ensures { Puts (λ l. options_in o (inline_tables_in inline_tables.old l)) (λ l. options_in o (inline_tables_in inline_tables.new l)) (from_load parsed.ins parsed.word returns) s result }
{
    let r1 = inline_table(s, parsed.ins, inline_tables);
    if !is_on(r1) {
        return r1;
    }
    let r2 = function_call(r1.state, parsed);
    if !is_on(r2) {
        return r2;
    }
    check_defined(o, r2.state, parsed.ins, returns)
}

// From in_conditional_block and is_return on. No call has been put yet.
#[inline(always)]
pub fn from_return(
    m: Module,
    s: State,
    parsed: Parsed,
    inside: bool,
    returns: bool,
    is_called_next: bool,
    labels: &mut [u32],
    pools: &mut [u32],
    inline_tables: &mut [u32],
) -> Loaded
    requires { Held 1 (length m.starts.now) m.starts.now × Held label_row s.counts.labels labels.old × Held pool_row s.counts.pools pools.old × Held table_row s.counts.inline_tables inline_tables.old × (s.progress.address + parsed.size < 2 ^ 32) × (s.call ≡ None) }
    ensures { PutsIf (ToldOfCalls parsed.size inside returns is_called_next s) (λ l. module_in m.entry (labels_in labels.old (pools_in pools.old (inline_tables_in inline_tables.old l)))) (λ l. loaded_in result.load (module_in m.entry (labels_in labels.new (pools_in pools.new (inline_tables_in inline_tables.new l))))) (from_return parsed.ins parsed.word parsed.size inside returns) s result.stepped }
{
    let branched = to_load(m, s, parsed, inside, returns, is_called_next, labels, pools);
    if !is_on(branched) {
        return Loaded {
            stepped: branched,
            load: None,
        };
    }
    let loaded = pool_load(m, branched.state, parsed.ins, pools);
    if !is_on(loaded.stepped) {
        return loaded;
    }
    let t = loaded.stepped.state;
    let stepped = from_load(m.options, t, parsed, returns, inline_tables);
    Loaded { stepped, ..loaded }
}
