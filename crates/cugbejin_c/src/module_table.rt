// A module's table for programs in other languages: lists that the host lends, and a number for each answer.
ghost use Rattle.std.specs.Prelude.{◌≡◌};
ghost use Rattle.context.specs.Lists.{lists};
ghost use Rattle.cugbejin_c.specs.Tables.{record_by, counts_by, lists_by, lent_by, append_number, write_number, AppendsIn, WritesIn};

use append::TableMut;
use base::refusal::Refusal;
use lists::Lists;
use table::{Entries, Table};
use walk::{Counts, Record};

fn append_number(answer: Result<(), Refusal>) -> u32
    ensures { result ≡ append_number answer }
{
    match answer {
        Ok(()) => 0,
        Err(refusal) => u8::from(refusal) as u32,
    }
}

fn write_number(answer: Result<usize, Refusal>) -> u32
    ensures { result ≡ write_number answer }
{
    match answer {
        Ok(_) => 0,
        Err(refusal) => u8::from(refusal) as u32,
    }
}

// A walk's record and its lists, of so many entries, put behind a table of `count` functions: 0, and the table has one more; or the refusal's
// number, 4 or 18, and every place is as it was. The walk's lists are only read.
#[unsafe(no_mangle)]
pub extern "C" fn cugbejin_append(
    start: u32,
    end: u32,
    first_instruction: u32,
    last_instruction_end: u32,
    saved_registers: u32,
    label_count: usize,
    pool_count: usize,
    jump_table_count: usize,
    inline_table_count: usize,
    call_count: usize,
    labels: &mut [u32],
    pools: &mut [u32],
    jump_tables: &mut [u32],
    inline_tables: &mut [u32],
    calls: &mut [u32],
    functions: &mut [u32],
    count: usize,
    table_labels: &mut [u32],
    table_pools: &mut [u32],
    table_jump_tables: &mut [u32],
    table_inline_tables: &mut [u32],
    table_calls: &mut [u32],
) -> u32
    ensures walked { lists labels.new pools.new jump_tables.new inline_tables.new calls.new ≡ lists labels.old pools.old jump_tables.old inline_tables.old calls.old }
    ensures appends { AppendsIn result (record_by start end first_instruction last_instruction_end saved_registers) (counts_by label_count pool_count jump_table_count inline_table_count call_count) (lists labels.old pools.old jump_tables.old inline_tables.old calls.old) (lent_by functions.old count (lists_by table_labels.old table_pools.old table_jump_tables.old table_inline_tables.old table_calls.old)) functions.new (lists_by table_labels.new table_pools.new table_jump_tables.new table_inline_tables.new table_calls.new) }
{
    let found = Record {
        start,
        end,
        first_instruction,
        last_instruction_end,
        saved_registers,
    };
    let counts = Counts {
        labels: label_count,
        pools: pool_count,
        jump_tables: jump_table_count,
        inline_tables: inline_table_count,
        calls: call_count,
    };
    let lists = Lists {
        labels,
        pools,
        jump_tables,
        inline_tables,
        calls,
    };
    let mut table = TableMut {
        functions,
        count,
        labels: table_labels,
        pools: table_pools,
        jump_tables: table_jump_tables,
        inline_tables: table_inline_tables,
        calls: table_calls,
    };
    append_number(table.append(found, &lists, counts))
}

// The file of a table of `count` functions at the start of `out`: 0, and how many bytes it has in `length`; or the refusal's number, 4 or 18, and 0
// in `length`, and every byte is as it was.
#[unsafe(no_mangle)]
pub extern "C" fn cugbejin_write(
    functions: &[u32],
    count: usize,
    labels: &[u32],
    pools: &[u32],
    jump_tables: &[u32],
    inline_tables: &[u32],
    calls: &[u32],
    out: &mut [u8],
    length: &mut [u64; 1],
) -> u32
    ensures { WritesIn result length.new (lent_by functions.now count (lists_by labels.now pools.now jump_tables.now inline_tables.now calls.now)) out.old out.new }
{
    let table = Table {
        functions,
        count,
        entries: Entries {
            labels,
            pools,
            jump_tables,
            inline_tables,
            calls,
        },
    };
    let answer = table.write(out);
    *length = [answer.unwrap_or(0) as u64];
    write_number(answer)
}
