// The listing of a walk's answer and lists, as document 01 has it. A list is lent as rows, whose numbers `context` tells.
#![tactic(auto)]

ghost use Rattle.std.specs.Prelude.{◌≡◌, ◌+◌, ◌*◌, ◌^◌, ◌≤◌, ◌<◌, eqb, leb, length};
ghost use Rattle.context.specs.Lists.{maps_in};
ghost use Rattle.rows.specs.Map.{map_in};
ghost use Rattle.base.specs.Choice.{pick};
ghost use Rattle.base.specs.Refusals.{refusal_no};
ghost use Rattle.text.specs.Writers.{HasRoom, Wrote};
ghost use Rattle.words.specs.Answer.{Answered};
ghost use Rattle.listing.specs.Lines.{field, two_digits, rest_of, line_of, lines_of};
ghost use Rattle.listing.specs.Listing.{rows_of, record_line, refusal_line, list_lines, text_with, shown, text_of, room_with, room_for, Fitting};

use base::refusal::Refusal;
use context::{CALL_ROW, LABEL_ROW, POOL_ROW, TABLE_ROW};
pub use lists::SharedLists;
use text::Writer;
use walk::{Answer, Counts, Record};
use words::NoRoom;

pub fn put_field(writer: &mut Writer<'_>, value: u32)
    requires { HasRoom writer.old 9 }
    ensures { Wrote writer.old writer.new (field value) × (writer.new.at ≡ writer.old.at + 9) }
{
    writer.put_byte(b' ');
    writer.put_hex(8, value);
}

fn put_two_digits(writer: &mut Writer<'_>, value: u32)
    requires { HasRoom writer.old 3 }
    ensures { Wrote writer.old writer.new (two_digits value) × (writer.new.at ≡ writer.old.at + 3) }
{
    writer.put_byte(b' ');
    writer.put_digits(2, value);
}

// The word that a number stands for: `one` at 1, `other` at any other.
fn put_word(writer: &mut Writer<'_>, value: u32, one: &[u8], other: &[u8])
    requires { HasRoom writer.old 6 × (length one.now ≤ 6) × (length other.now ≤ 6) }
    ensures { Wrote writer.old writer.new (pick (eqb value 1) one.now other.now) × (writer.new.at ≤ writer.old.at + 6) }
{
    writer.put_bytes(if value == 1 { one } else { other });
}

// What follows the address of a row.
fn put_rest(writer: &mut Writer<'_>, row: &[u32])
    requires { HasRoom writer.old 24 }
    ensures { Wrote writer.old writer.new (rest_of row.now) × (writer.new.at ≤ writer.old.at + 24) }
{
    match row {
        [_, size] => put_field(writer, *size),
        [_, value, mark] => {
            put_field(writer, *value);
            put_word(writer, *mark, b" call", b" other");
        }
        [_, word, destination, mode] => {
            put_field(writer, *word);
            put_field(writer, *destination);
            put_word(writer, *mode, b" thumb", b" arm");
        }
        _ => {}
    }
}

fn put_line(writer: &mut Writer<'_>, name: &[u8], row: &[u32])
    requires { HasRoom writer.old 40 × (length name.now ≤ 6) × (0 < length row.now) }
    ensures { Wrote writer.old writer.new (line_of name.now row.now) × (writer.new.at ≤ writer.old.at + 40) }
{
    writer.put_bytes(name);
    put_field(writer, row[0]);
    put_rest(writer, row);
    writer.put_byte(b'\n');
}

// The lines of a list's first `count` rows, of any width. No `Rows`: nothing has checked the lists that are shown.
fn put_lines(writer: &mut Writer<'_>, name: &[u8], list: &[u32], stride: usize, count: usize)
    requires { HasRoom writer.old (40 * count) × (length name.now ≤ 6) × (0 < stride) × (count * stride ≤ length list.now) }
    ensures { Wrote writer.old writer.new (lines_of name.now (map_in stride count list.now)) × (writer.new.at ≤ writer.old.at + 40 * count) }
{
    for row in list.chunks_exact(stride).take(count) {
        put_line(writer, name, row);
    }
}

fn put_record(writer: &mut Writer<'_>, r: Record)
    requires { HasRoom writer.old 48 }
    ensures { Wrote writer.old writer.new (record_line r) × (writer.new.at ≡ writer.old.at + 48) }
{
    writer.put_bytes(b"function");
    put_field(writer, r.start);
    put_field(writer, r.end);
    put_field(writer, r.first_instruction);
    put_field(writer, r.last_instruction_end);
    put_two_digits(writer, r.saved_registers);
    writer.put_byte(b'\n');
}

pub fn put_refusal(writer: &mut Writer<'_>, refusal: Refusal, address: u32)
    requires { HasRoom writer.old 45 }
    ensures { Wrote writer.old writer.new (refusal_line (refusal_no refusal) address) }
{
    writer.put_bytes(b"refused ");
    writer.put_decimal(u8::from(refusal) as u64);
    put_field(writer, address);
    writer.put_byte(b'\n');
}

// The lines of every list.
fn put_lists(writer: &mut Writer<'_>, lists: SharedLists<'_>, n: Counts)
    requires { HasRoom writer.old (40 * (n.labels + n.pools + n.jump_tables + n.inline_tables + n.calls)) × Fitting (rows_of lists) n }
    ensures { Wrote writer.old writer.new (list_lines (maps_in n (rows_of lists.entry))) }
{
    put_lines(writer, b"label", lists.labels, LABEL_ROW, n.labels);
    put_lines(writer, b"pool", lists.pools, POOL_ROW, n.pools);
    put_lines(writer, b"jump", lists.jump_tables, TABLE_ROW, n.jump_tables);
    put_lines(
        writer,
        b"inline",
        lists.inline_tables,
        TABLE_ROW,
        n.inline_tables,
    );
    put_lines(writer, b"call", lists.calls, CALL_ROW, n.calls);
}

fn put_answer(writer: &mut Writer<'_>, answer: Answer, lists: SharedLists<'_>, n: Counts)
    requires { HasRoom writer.old (room_with n) × Fitting (rows_of lists) n }
    ensures { Wrote writer.old writer.new (text_with answer (maps_in n (rows_of lists.entry))) }
{
    match answer {
        Answer::Going => {}
        Answer::Accepted(record) => {
            put_record(writer, record);
            put_lists(writer, lists, n);
        }
        Answer::Refused {
            refusal,
            address,
            ..
        } => put_refusal(writer, refusal, address),
    }
}

// How many rows of each list are shown.
#[tactic(auto, unfolding(crate::specs::Listing::shown))]
fn shown(lists: SharedLists<'_>, n: Counts) -> Counts
    ensures { result ≡ shown (rows_of lists.entry) n }
{
    Counts {
        labels: n.labels.min(lists.labels.len() / LABEL_ROW),
        pools: n.pools.min(lists.pools.len() / POOL_ROW),
        jump_tables: n.jump_tables.min(lists.jump_tables.len() / TABLE_ROW),
        inline_tables: n.inline_tables.min(lists.inline_tables.len() / TABLE_ROW),
        calls: n.calls.min(lists.calls.len() / CALL_ROW),
    }
}

// Whether the buffer is long enough. Five lists have fewer than 2^64 rows together, so their sum is taken as it is.
#[tactic(auto, unfolding(crate::specs::Listing::room_with), using(std::proofs::lemmas::Bool::Decides::nat_tests))]
fn has_room(places: usize, n: Counts) -> bool
    requires { n.labels + n.pools + n.jump_tables + n.inline_tables + n.calls < 2 ^ 64 }
    ensures { result ≡ leb (room_with n) places }
{
    let Some(left) = places.checked_sub(48) else {
        return false;
    };
    n.labels + n.pools + n.jump_tables + n.inline_tables + n.calls <= left / 40
}

// The listing of an answer and its lists, at the start of the buffer.
pub fn listing(
    out: &mut [u8],
    answer: Answer,
    lists: SharedLists<'_>,
    counts: Counts,
) -> Result<usize, NoRoom>
    ensures { Answered (text_of answer (rows_of lists.entry) counts) (room_for (rows_of lists.entry) counts) out.old result out.new }
{
    let n = shown(lists, counts);
    if !has_room(out.len(), n) {
        return Err(NoRoom);
    }
    let mut writer = Writer::new(out);
    put_answer(&mut writer, answer, lists, n);
    Ok(writer.at)
}
