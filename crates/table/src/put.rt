// The parts of a table's file, put behind one another.
ghost use Rattle.std.specs.Prelude.{◌≡◌, ◌*◌, ◌≤◌, ◌<◌, length, true};
ghost use Rattle.text.specs.Writers.{HasRoom, Wrote};
ghost use Rattle.table.specs.Held.{function_row, lists_of, function_in, functions_in, fits_lists};
ghost use Rattle.table.specs.File.{number, numbers, function};
ghost use Rattle.table.specs.Own.{Own, heading_in, flags, entries_in, functions};

use crate::{
    CALL_ROW, Entries, INLINE_TABLE_ROW, JUMP_TABLE_ROW, LABEL_ROW, LABELS_AT, POOL_ROW, Row,
    SAVED_REGISTERS_AT,
};
use text::Writer;

// Four bytes, the highest first.
pub(crate) fn put_number(writer: &mut Writer<'_>, value: u32)
    requires { HasRoom writer.old 4 }
    ensures { Wrote writer.old writer.new (number value) }
{
    writer.put_bytes(&value.to_be_bytes());
}

fn put_numbers(writer: &mut Writer<'_>, values: &[u32])
    requires { HasRoom writer.old (4 * length values.now) }
    ensures { Wrote writer.old writer.new (numbers values.now) }
{
    for value in values {
        put_number(writer, *value);
    }
}

// A function's addresses and counts. The file leaves out how many registers it saves.
fn put_heading(writer: &mut Writer<'_>, row: &Row)
    requires { HasRoom writer.old 36 }
    ensures { Wrote writer.old writer.new (numbers (heading_in row.now)) }
{
    put_numbers(writer, &row[..SAVED_REGISTERS_AT]);
    put_numbers(writer, &row[LABELS_AT..]);
}

// A byte for each flag.
fn put_flags(writer: &mut Writer<'_>, values: &[u32])
    requires { HasRoom writer.old (length values.now) }
    ensures { Wrote writer.old writer.new (flags values.now) }
{
    for value in values {
        writer.put_byte((*value == 1) as u8);
    }
}

// The rows of a list: the first numbers of each, so many, and the flags behind them.
fn put_entries<const STRIDE: usize>(writer: &mut Writer<'_>, list: &[u32], numbers: usize)
    requires { (0 < STRIDE) × (STRIDE ≤ function_row) × (numbers ≤ STRIDE) × HasRoom writer.old (length (entries_in STRIDE numbers list.now)) }
    ensures { Wrote writer.old writer.new (entries_in STRIDE numbers list.now) }
{
    let (rows, _) = list.as_chunks::<STRIDE>();
    for row in rows {
        let (first, others) = row.split_at(numbers);
        put_numbers(writer, first);
        put_flags(writer, others);
    }
}

// A function with its own entries.
fn put_function(writer: &mut Writer<'_>, row: &Row, own: Entries<'_>)
    requires { Own row.now (lists_of own) × HasRoom writer.old (length (function (function_in row.now (lists_of own)))) }
    ensures { Wrote writer.old writer.new (function (function_in row.now (lists_of own.entry))) }
{
    put_heading(writer, row);
    put_entries::<LABEL_ROW>(writer, own.labels, 1);
    put_entries::<POOL_ROW>(writer, own.pools, 2);
    put_entries::<JUMP_TABLE_ROW>(writer, own.jump_tables, 2);
    put_entries::<INLINE_TABLE_ROW>(writer, own.inline_tables, 2);
    put_entries::<CALL_ROW>(writer, own.calls, 3);
}

// No list falls short: the entries of all functions have their places.
pub(crate) fn put_functions(writer: &mut Writer<'_>, rows: &[Row], entries: Entries<'_>)
    requires { (fits_lists rows.now (lists_of entries) ≡ true) × HasRoom writer.old (length (functions (functions_in rows.now (lists_of entries)))) }
    ensures { Wrote writer.old writer.new (functions (functions_in rows.now (lists_of entries.entry))) }
{
    let mut left = entries;
    for row in rows {
        let Some((own, others)) = left.split(row) else {
            return;
        };
        put_function(writer, row, own);
        left = others;
    }
}
