// The file of a table: the length of what follows, the version, the number of functions, and the functions. Numbers have four bytes, the
// highest first; a mark or a mode has one.
ghost use Rattle.std.specs.Prelude.{◌≡◌, ◌-◌, ◌^◌, min};
ghost use Rattle.table.specs.File.{Filed};
ghost use Rattle.table.specs.Own.{row_len, rows_len, body_within};

use crate::put::{put_functions, put_number};
use crate::{CALLS_AT, INLINE_TABLES_AT, JUMP_TABLES_AT, LABELS_AT, POOLS_AT, Row, Table};
use base::refusal::Refusal;
use text::Writer;

const VERSION: u8 = 1;

// How many bytes a function has.
fn row_len(row: &Row) -> usize
    ensures { result ≡ row_len row.now }
{
    36 + 4 * row[LABELS_AT] as usize
        + 9 * row[POOLS_AT] as usize
        + 8 * row[JUMP_TABLES_AT] as usize
        + 8 * row[INLINE_TABLES_AT] as usize
        + 13 * row[CALLS_AT] as usize
}

// How many bytes follow the length, or the highest number where they are more.
fn rows_len(rows: &[Row]) -> usize
    ensures { result ≡ min (rows_len rows.now) (2 ^ 64 - 1) }
{
    let mut len: usize = 5;
    for row in rows {
        len = len.saturating_add(row_len(row));
    }
    len
}

// How many bytes follow the length, where that fits four bytes, and the whole file fits the output.
#[tactic(auto, unfolding(crate::specs::Own::body_within))]
fn body_len(rows: &[Row], places: usize) -> Option<u32>
    ensures { result ≡ body_within (rows_len rows.now) places }
{
    let len = rows_len(rows);
    if len > u32::MAX as usize || places < 4 + len {
        return None;
    }
    Some(len as u32)
}

impl<'a> Table<'a> {
    // The file, at the start of the buffer; or a refusal, before any byte is written.
    pub fn write(self, out: &mut [u8]) -> Result<usize, Refusal>
        ensures { Filed self.entry out.old result out.new }
    {
        let Some(rows) = self.sound_rows() else {
            return Err(Refusal::BadLists);
        };
        let Some(len) = body_len(rows, out.len()) else {
            return Err(Refusal::NoRoom);
        };
        let mut writer = Writer::new(out);
        put_number(&mut writer, len);
        writer.put_byte(VERSION);
        put_number(&mut writer, rows.len() as u32);
        put_functions(&mut writer, rows, self.entries);
        Ok(writer.at)
    }
}
