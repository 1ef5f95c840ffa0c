// A module's table in lists that a host lends, and the file of a table. A function is a row, and its entries stand in five lists of rows,
// after those of the function before it. What stands behind them is no part of the table.
#![tactic(auto)]

pub mod file;
mod put;

ghost use Rattle.std.specs.Prelude.{◌≡◌, ◌≤◌, ◌<◌, ◌*◌, map, false, leb, ltb, length, MatchOption};
ghost use Rattle.rows.specs.Order.{ascending};
ghost use Rattle.table.specs.Table.{rises};
ghost use Rattle.table.specs.Held.{function_row, lists_of, has_rows, Rows, sound};
ghost use Rattle.table.specs.Split.{Cut, Split, fits_row, rows_in, lists_rise, first_of, entries_sound, SoundRows};

use rows::order::is_ascending;

// The numbers in a row of each list. A function: start, end, first instruction, last instruction end; saved registers; counts of labels, pools,
// jump tables, inline tables and calls. A label: address. A pool: address, value, mark. A jump or an inline table: address, size. A call: address,
// word, destination, mode.
pub const FUNCTION_ROW: usize = 10;

pub const LABEL_ROW: usize = 1;

pub const POOL_ROW: usize = 3;

pub const JUMP_TABLE_ROW: usize = 2;

pub const INLINE_TABLE_ROW: usize = 2;

pub const CALL_ROW: usize = 4;

// Where a function's row has its first instruction, how many registers it saves, and its counts.
pub const FIRST_INSTRUCTION_AT: usize = 2;

pub const SAVED_REGISTERS_AT: usize = 4;

pub const LABELS_AT: usize = 5;

pub const POOLS_AT: usize = 6;

pub const JUMP_TABLES_AT: usize = 7;

pub const INLINE_TABLES_AT: usize = 8;

pub const CALLS_AT: usize = 9;

// The entries of functions.
#[derive(Clone, Copy)]
pub struct Entries<'a> {
    pub labels: &'a [u32],
    pub pools: &'a [u32],
    pub jump_tables: &'a [u32],
    pub inline_tables: &'a [u32],
    pub calls: &'a [u32],
}

// A table of `count` functions.
#[derive(Clone, Copy)]
pub struct Table<'a> {
    pub functions: &'a [u32],
    pub count: usize,
    pub entries: Entries<'a>,
}

// A function's row.
pub type Row = [u32; FUNCTION_ROW];

// The first rows of a list, so many of them, and what stands behind them.
fn split_rows<'a>(list: &'a [u32], stride: usize, count: u32) -> Option<(&'a [u32], &'a [u32])>
    requires { stride ≤ function_row }
    ensures { MatchOption result (leb (count * stride) (length list.now) ≡ false) (λ p. Cut (count * stride) list.now p.0.now p.1.now) }
{
    list.split_at_checked(count as usize * stride)
}

impl<'a> Entries<'a> {
    // A function's own entries, which come first, and those behind them.
    pub(crate) fn split(self, row: &Row) -> Option<(Entries<'a>, Entries<'a>)>
        ensures { MatchOption result (fits_row row.now (lists_of self.entry) ≡ false) (λ p. Split row.now (lists_of self.entry) (lists_of p.0) (lists_of p.1)) }
    {
        let labels = split_rows(self.labels, LABEL_ROW, row[LABELS_AT])?;
        let pools = split_rows(self.pools, POOL_ROW, row[POOLS_AT])?;
        let jump_tables = split_rows(self.jump_tables, JUMP_TABLE_ROW, row[JUMP_TABLES_AT])?;
        let inline_tables = split_rows(
            self.inline_tables,
            INLINE_TABLE_ROW,
            row[INLINE_TABLES_AT],
        )?;
        let calls = split_rows(self.calls, CALL_ROW, row[CALLS_AT])?;
        let own = Entries {
            labels: labels.0,
            pools: pools.0,
            jump_tables: jump_tables.0,
            inline_tables: inline_tables.0,
            calls: calls.0,
        };
        let others = Entries {
            labels: labels.1,
            pools: pools.1,
            jump_tables: jump_tables.1,
            inline_tables: inline_tables.1,
            calls: calls.1,
        };
        Some((own, others))
    }

    // Whether each list ascends strictly by address.
    #[tactic(auto, unfolding(crate::specs::Split::lists_rise))]
    pub(crate) fn ascend(self) -> bool
        ensures { result ≡ lists_rise (lists_of self.entry) }
    {
        rise::<LABEL_ROW>(self.labels)
            && rise::<POOL_ROW>(self.pools)
            && rise::<JUMP_TABLE_ROW>(self.jump_tables)
            && rise::<INLINE_TABLE_ROW>(self.inline_tables)
            && rise::<CALL_ROW>(self.calls)
    }
}

// Whether the rows of a list ascend strictly by address.
fn rise<const STRIDE: usize>(list: &[u32]) -> bool
    requires { 0 < STRIDE }
    ensures { result ≡ rises (rows_in STRIDE list.now) }
{
    is_ascending::<STRIDE>(list, list.len() / STRIDE)
}

// Whether first instructions ascend strictly.
fn functions_ascend(rows: &[Row]) -> bool
    ensures { result ≡ ascending (map first_of rows.now) }
{
    rows.is_sorted_by(
        |a, b| -> bool
            ensures { result ≡ ltb (first_of a.now) (first_of b.now) }
        { a[FIRST_INSTRUCTION_AT] < b[FIRST_INSTRUCTION_AT] },
    )
}

// Whether the lists have the entries of all functions, which ascend in each.
fn entries_ascend(rows: &[Row], entries: Entries<'_>) -> bool
    ensures { result ≡ entries_sound rows.now (lists_of entries.entry) }
{
    let mut left = entries;
    for row in rows {
        let Some((own, others)) = left.split(row) else {
            return false;
        };
        if !own.ascend() {
            return false;
        }
        left = others;
    }
    true
}

impl<'a> Table<'a> {
    // The functions' rows, where the list has so many.
    pub fn rows(self) -> Option<&'a [Row]>
        ensures { MatchOption result (has_rows self.entry ≡ false) (λ rows. Rows self.entry rows.now) }
    {
        let (rows, _) = self.functions.as_chunks::<FUNCTION_ROW>();
        rows.get(..self.count)
    }

    // The same, where the table is sound: no count is above its list, and it ascends.
    pub(crate) fn sound_rows(self) -> Option<&'a [Row]>
        ensures { MatchOption result (sound self.entry ≡ false) (λ rows. SoundRows self.entry rows.now) }
    {
        let rows = self.rows()?;
        (functions_ascend(rows) && entries_ascend(rows, self.entries)).then_some(rows)
    }
}
