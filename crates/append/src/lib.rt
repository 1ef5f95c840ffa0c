// A walk's record and its lists put behind a table in lists that a host lends. The table keeps its order, or the function is refused, and then
// every place is as it was.
#![tactic(auto)]

pub mod copying;

ghost use Rattle.std.specs.Prelude.{◌≡◌, ◌+◌, ◌*◌, ◌≤◌, ◌<◌, Some, None, length};
ghost use Rattle.base.specs.Choice.{pick};
ghost use Rattle.context.specs.Lists.{maps_in};
ghost use Rattle.lists.specs.Lists.{lists_of};
ghost use Rattle.table.specs.Held.{function_row, has, fits_lists};
ghost use Rattle.text.specs.Put.{put};
ghost use Rattle.append.specs.Append.{total, totals, lent_by, shared_by, is_above, last_of, has_room, has_places, checked, row_of, Few, Room, with_lists, filled, Appended, IsSame};

use base::refusal::Refusal;
use copying::CallRows;
use lists::Lists;
use table::{
    CALL_ROW, CALLS_AT, Entries, FIRST_INSTRUCTION_AT, FUNCTION_ROW, INLINE_TABLE_ROW,
    INLINE_TABLES_AT, JUMP_TABLE_ROW, JUMP_TABLES_AT, LABEL_ROW, LABELS_AT, POOL_ROW, POOLS_AT,
    Row, Table,
};
use walk::{Counts, Record};

// A table of `count` functions, in lists to which more can be added.
#[derive(Drop)]
pub struct TableMut<'a> {
    pub functions: &'a mut [u32],
    pub count: usize,
    pub labels: &'a mut [u32],
    pub pools: &'a mut [u32],
    pub jump_tables: &'a mut [u32],
    pub inline_tables: &'a mut [u32],
    pub calls: &'a mut [u32],
}

// A count of all functions together, where a list has places for so many rows.
fn total(rows: &[Row], at: usize, list: &[u32], stride: usize) -> Option<usize>
    requires at { at < function_row }
    requires some { 0 < stride }
    ensures { result ≡ pick (has rows.now at stride list.now) (Some (total at rows.now)) None }
{
    let most = list.len() / stride;
    let mut sum: usize = 0;
    for row in rows {
        sum = sum.checked_add(row[at] as usize)?;
        if most < sum {
            return None;
        }
    }
    Some(sum)
}

// Whether so many rows have places behind others, and their count one in a function's row.
#[tactic(auto, unfolding(crate::specs::Append::has_room))]
fn has_room(list: &[u32], stride: usize, others: usize, count: usize) -> bool
    requires { 0 < stride }
    ensures { result ≡ has_room stride others count list.now }
{
    if u32::try_from(count).is_err() {
        return false;
    }
    match others.checked_add(count) {
        Some(rows) => rows <= list.len() / stride,
        None => false,
    }
}

#[tactic(auto, unfolding(text::specs::Put::put))]
pub(crate) fn put(list: &mut [u32], at: usize, numbers: &[u32])
    requires { at + length numbers.now ≤ length list.old }
    ensures { list.new ≡ put list.old at numbers.now }
{
    list[at..at + numbers.len()].copy_from_slice(numbers);
}

// The numbers of a function.
#[tactic(auto, unfolding(crate::specs::Append::row_of))]
fn row_of(r: Record, n: Counts) -> Row
    requires { Few n }
    ensures { result ≡ row_of r n }
{
    [
        r.start,
        r.end,
        r.first_instruction,
        r.last_instruction_end,
        r.saved_registers,
        n.labels as u32,
        n.pools as u32,
        n.jump_tables as u32,
        n.inline_tables as u32,
        n.calls as u32,
    ]
}

// Whether an address is above the first instruction of the last function.
fn is_above(rows: &[Row], address: u32) -> bool
    ensures { result ≡ is_above address (last_of rows.now) }
{
    match rows.last() {
        Some(row) => row[FIRST_INSTRUCTION_AT] < address,
        None => true,
    }
}

impl<'a> TableMut<'a> {
    // How many entries the functions have of each kind, where all have their places.
    fn used(&self, rows: &[Row]) -> Option<Counts>
        ensures { result ≡ pick (fits_lists rows.now (lent_by self.now).lists) (Some (totals rows.now)) None }
    {
        Some(Counts {
            labels: total(rows, LABELS_AT, self.labels, LABEL_ROW)?,
            pools: total(rows, POOLS_AT, self.pools, POOL_ROW)?,
            jump_tables: total(rows, JUMP_TABLES_AT, self.jump_tables, JUMP_TABLE_ROW)?,
            inline_tables: total(rows, INLINE_TABLES_AT, self.inline_tables, INLINE_TABLE_ROW)?,
            calls: total(rows, CALLS_AT, self.calls, CALL_ROW)?,
        })
    }

    // Whether one function more has its places, with so many entries.
    #[tactic(auto, unfolding(crate::specs::Append::has_places))]
    fn has_places(&self, used: Counts, n: Counts) -> bool
        ensures { result ≡ has_places used n (lent_by self.now) }
    {
        self.count < self.functions.len() / FUNCTION_ROW
            && has_room(self.labels, LABEL_ROW, used.labels, n.labels)
            && has_room(self.pools, POOL_ROW, used.pools, n.pools)
            && has_room(
                self.jump_tables,
                JUMP_TABLE_ROW,
                used.jump_tables,
                n.jump_tables,
            )
            && has_room(
                self.inline_tables,
                INLINE_TABLE_ROW,
                used.inline_tables,
                n.inline_tables,
            )
            && has_room(self.calls, CALL_ROW, used.calls, n.calls)
    }

    // How many entries the table has of each kind, or why the function is refused: 4 before 18.
    fn check<C: CallRows>(&self, first: u32, lists: &Lists<C>, n: Counts) -> Result<Counts, Refusal>
        ensures { result ≡ checked first n (lists_of C.numbers lists.now) (lent_by self.now) }
    {
        let Some(rows) = self.table().rows() else {
            return Err(Refusal::BadLists);
        };
        let Some(used) = self.used(rows) else {
            return Err(Refusal::BadLists);
        };
        if !lists.in_order(n) {
            return Err(Refusal::BadLists);
        }
        if !is_above(rows, first) {
            return Err(Refusal::BadLists);
        }
        if !self.has_places(used, n) {
            return Err(Refusal::NoRoom);
        }
        Ok(used)
    }

    // A walk's entries behind those of the table.
    fn put_entries<C: CallRows>(&mut self, used: Counts, lists: &Lists<C>, n: Counts)
        requires { Room used n (lists_of C.numbers lists.now) (lent_by self.old).lists }
        ensures same { IsSame self.old self.new }
        ensures filled { lent_by self.new ≡ with_lists (filled used (maps_in n (lists_of C.numbers lists.now)) (lent_by self.old).lists) (lent_by self.old) }
    {
        put(
            self.labels,
            used.labels * LABEL_ROW,
            &lists.labels[..n.labels * LABEL_ROW],
        );
        put(
            self.pools,
            used.pools * POOL_ROW,
            &lists.pools[..n.pools * POOL_ROW],
        );
        put(
            self.jump_tables,
            used.jump_tables * JUMP_TABLE_ROW,
            &lists.jump_tables[..n.jump_tables * JUMP_TABLE_ROW],
        );
        put(
            self.inline_tables,
            used.inline_tables * INLINE_TABLE_ROW,
            &lists.inline_tables[..n.inline_tables * INLINE_TABLE_ROW],
        );
        lists
            .calls
            .copy_rows(n.calls, self.calls, used.calls * CALL_ROW);
    }

    // The function of a walk's record and its lists, of so many entries, put behind the table. A refused one leaves every place as it was.
    pub fn append<C: CallRows>(
        &mut self,
        found: Record,
        lists: &Lists<C>,
        n: Counts,
    ) -> Result<(), Refusal>
        ensures same { IsSame self.old self.new }
        ensures appended { Appended found n (lists_of C.numbers lists.now) (lent_by self.old) result (lent_by self.new) }
    {
        let used = self.check(found.first_instruction, lists, n)?;
        put(self.functions, self.count * FUNCTION_ROW, &row_of(found, n));
        self.put_entries(used, lists, n);
        self.count += 1;
        Ok(())
    }

    // The table, to be read.
    pub fn table(&self) -> Table<'_>
        ensures { shared_by result ≡ lent_by self.now }
    {
        Table {
            functions: self.functions,
            count: self.count,
            entries: Entries {
                labels: self.labels,
                pools: self.pools,
                jump_tables: self.jump_tables,
                inline_tables: self.inline_tables,
                calls: self.calls,
            },
        }
    }
}
