// The table program's work on slices: a request in; the table of the accepted functions out, and a line for each refused start.
#![tactic(auto)]

ghost use Rattle.std.specs.Prelude.{◌≡◌, ◌≤◌, ◌<◌, ◌+◌, ◌*◌, true, [], length, map};
ghost use Rattle.base.specs.Refusals.{refusal_no};
ghost use Rattle.finder.specs.Finder.{rows_of, IsSame as SameLists};
ghost use Rattle.rows.specs.Order.{ascending};
ghost use Rattle.text.specs.Writers.{HasRoom, Wrote};
ghost use Rattle.append.specs.Append.{lent_by, table_of, IsSame};
ghost use Rattle.module_request.specs.ModuleRequest.{start_of};
ghost use Rattle.tabling.specs.Tabling.{start_line, found_at, found_from, filed, made, Makes};
ghost use Rattle.tabling.specs.Taking.{Ready, Readied, AllReady, Took, Within, Has, without, line_room};
ghost use Rattle.context.specs.Lists.{lists};
ghost use Rattle.append_laws.specs.Kept.{holds_table};
ghost use Rattle.table.specs.Held.{held_by, sound};
ghost use Rattle.text.specs.Put.{put};

use append::TableMut;
use base::refusal::Refusal;
use context::{CALL_ROW, LABEL_ROW, Module, POOL_ROW, TABLE_ROW};
use listing::{put_field, put_refusal};
use lists::Lists;
use module_request::start_of;
use outcome::no_counts;
use table::Table;
use text::Writer;
use walk::{Answer, Counts, Record};

// The entries that a module's table has places for.
const PLACES: Counts = Counts {
    labels: 1024,
    pools: 1024,
    jump_tables: 64,
    inline_tables: 64,
    calls: 1024,
};

// The line of a refused start.
fn put_start(writer: &mut Writer<'_>, refusal: Refusal, address: u32, start: u32)
    requires { HasRoom writer.old line_room }
    ensures { Wrote writer.old writer.new (start_line (refusal_no refusal) address start) × (writer.new.at ≤ writer.old.at + line_room) }
{
    writer.put_bytes(b"refused ");
    writer.put_decimal(u8::from(refusal) as u64);
    put_field(writer, address);
    put_field(writer, start);
    writer.put_byte(b'\n');
}

// What is left of some places.
fn minus(left: Counts, n: Counts) -> Counts
    requires { Within n left }
    ensures { result ≡ without left n }
{
    Counts {
        labels: left.labels - n.labels,
        pools: left.pools - n.pools,
        jump_tables: left.jump_tables - n.jump_tables,
        inline_tables: left.inline_tables - n.inline_tables,
        calls: left.calls - n.calls,
    }
}

// One start's walk. An accepted function stands in the table after it, and a refused start has its line.
fn walk_start(
    m: Module,
    start: u32,
    lists: &mut Lists<&mut [u32]>,
    table: &mut TableMut<'_>,
    left: Counts,
    errors: &mut Writer<'_>,
) -> Counts
    requires ready { Ready (rows_of lists.old) (lent_by table.old) left start }
    requires room { HasRoom errors.old line_room }
    requires starts { m.starts.now ≡ [] }
    ensures lists { SameLists lists.old lists.new }
    ensures same { IsSame table.old table.new }
    ensures took { Took m.entry.options m.entry.code.now start (lent_by table.old) (lent_by table.new) result }
    ensures line { Wrote errors.old errors.new (found_at m.entry.options m.entry.code.now start (table_of (lent_by table.old))).lines × (errors.new.at ≤ errors.old.at + line_room) }
{
    let ran = whole::run(m, start, lists, no_counts());
    match ran.answer {
        Answer::Going => left,
        Answer::Accepted(record) => {
            if table.append(record, lists, ran.walk.counts).is_err() {
                return left;
            }
            minus(left, ran.walk.counts)
        }
        Answer::Refused {
            refusal,
            address,
            ..
        } => {
            put_start(errors, refusal, address, start);
            left
        }
    }
}

// One start. Its walk is lent what the table has left of its places: the front of each list. The lists are no struct here and below, since their
// fronts are lent side by side.
fn take(
    m: Module,
    start: u32,
    labels: &mut [u32],
    pools: &mut [u32],
    jump_tables: &mut [u32],
    inline_tables: &mut [u32],
    calls: &mut [u32],
    table: &mut TableMut<'_>,
    left: Counts,
    errors: &mut Writer<'_>,
) -> Counts
    requires has { Has left (lists labels.old pools.old jump_tables.old inline_tables.old calls.old) }
    requires ready { Readied (lent_by table.old) left start }
    requires room { HasRoom errors.old line_room }
    requires alone { m.starts.now ≡ [] }
    ensures same { IsSame table.old table.new }
    ensures took { Took m.entry.options m.entry.code.now start (lent_by table.old) (lent_by table.new) result }
    ensures line { Wrote errors.old errors.new (found_at m.entry.options m.entry.code.now start (table_of (lent_by table.old))).lines × (errors.new.at ≤ errors.old.at + line_room) }
{
    let mut lent = Lists {
        labels: &mut labels[..left.labels * LABEL_ROW],
        pools: &mut pools[..left.pools * POOL_ROW],
        jump_tables: &mut jump_tables[..left.jump_tables * TABLE_ROW],
        inline_tables: &mut inline_tables[..left.inline_tables * TABLE_ROW],
        calls: &mut calls[..left.calls * CALL_ROW],
    };
    walk_start(m, start, &mut lent, table, left, errors)
}

// All starts, in order.
fn take_all(
    m: Module,
    starts: &[[u8; 4]],
    labels: &mut [u32],
    pools: &mut [u32],
    jump_tables: &mut [u32],
    inline_tables: &mut [u32],
    calls: &mut [u32],
    table: &mut TableMut<'_>,
    errors: &mut Writer<'_>,
)
    requires ready { AllReady (lists labels.old pools.old jump_tables.old inline_tables.old calls.old) (lent_by table.old) (length starts.now) }
    requires ascend { ascending (map start_of starts.now) ≡ true }
    requires room { HasRoom errors.old (length starts.now * line_room) }
    requires alone { m.starts.now ≡ [] }
    ensures same { IsSame table.old table.new }
    ensures sound { holds_table (lent_by table.new) ≡ true }
    ensures table { table_of (lent_by table.new) ≡ (found_from m.entry.options m.entry.code.now (map start_of starts.now) []).table }
    ensures lines { Wrote errors.old errors.new (found_from m.entry.options m.entry.code.now (map start_of starts.now) []).lines × (errors.new.at ≤ errors.old.at + length starts.now * line_room) }
{
    let mut left = PLACES;
    for bytes in starts {
        left = take(
            m,
            start_of(bytes),
            labels,
            pools,
            jump_tables,
            inline_tables,
            calls,
            table,
            left,
            errors,
        );
    }
}

// How many bytes of each buffer are written.
#[derive(Clone, Copy)]
pub struct Written {
    pub file: usize,
    pub lines: usize,
}

// The file of a table at the start of `out`, or a line that says why there is none.
fn write_file(table: Table<'_>, out: &mut [u8], errors: &mut Writer<'_>) -> usize
    requires sound { sound table ≡ true }
    requires room { HasRoom errors.old 45 }
    ensures file { out.new ≡ put out.old 0 (filed (held_by table.entry) (length out.old)).file }
    ensures len { result ≡ length (filed (held_by table.entry) (length out.old)).file }
    ensures lines { Wrote errors.old errors.new (filed (held_by table.entry) (length out.old)).lines }
{
    match table.write(out) {
        Ok(len) => len,
        Err(refusal) => {
            put_refusal(errors, refusal, 0);
            0
        }
    }
}

// The file of an input's functions at the start of `out`, and the lines of what is refused.
fn make(
    input: &[u8],
    labels: &mut [u32],
    pools: &mut [u32],
    jump_tables: &mut [u32],
    inline_tables: &mut [u32],
    calls: &mut [u32],
    table: &mut TableMut<'_>,
    out: &mut [u8],
    errors: &mut Writer<'_>,
) -> usize
    requires ready { AllReady (lists labels.old pools.old jump_tables.old inline_tables.old calls.old) (lent_by table.old) 256 }
    requires room { HasRoom errors.old (256 * line_room + 45) }
    ensures same { IsSame table.old table.new }
    ensures file { out.new ≡ put out.old 0 (made input.now (length out.old)).file }
    ensures len { result ≡ length (made input.now (length out.old)).file }
    ensures lines { Wrote errors.old errors.new (made input.now (length out.old)).lines }
{
    match module_request::parse(input) {
        Ok(asked) => {
            let module = Module {
                options: asked.options,
                code: asked.code,
                starts: &[],
            };
            take_all(
                module,
                asked.starts,
                labels,
                pools,
                jump_tables,
                inline_tables,
                calls,
                table,
                errors,
            );
            write_file(table.table(), out, errors)
        }
        Err(refusal) => {
            put_refusal(errors, refusal, 0);
            0
        }
    }
}

// The same, with the lines at the start of `errors`. The five lists are for the walks; `table` has no function before.
pub fn tabulate(
    input: &[u8],
    labels: &mut [u32],
    pools: &mut [u32],
    jump_tables: &mut [u32],
    inline_tables: &mut [u32],
    calls: &mut [u32],
    table: &mut TableMut<'_>,
    out: &mut [u8],
    errors: &mut [u8],
) -> Written
    requires ready { AllReady (lists labels.old pools.old jump_tables.old inline_tables.old calls.old) (lent_by table.old) 256 }
    requires room { 256 * line_room + 45 ≤ length errors.old }
    ensures same { IsSame table.old table.new }
    ensures makes { Makes (made input.now (length out.old)) out.old errors.old result out.new errors.new }
{
    let mut writer = Writer::new(errors);
    let file = make(
        input,
        labels,
        pools,
        jump_tables,
        inline_tables,
        calls,
        table,
        out,
        &mut writer,
    );
    Written {
        file,
        lines: writer.at,
    }
}
