// The lines that the program writes.
ghost use Rattle.std.specs.Prelude.{◌≤◌, ◌<◌, length};

use base::refusal::Refusal;
use context::{CALL_ROW, LABEL_ROW, POOL_ROW, TABLE_ROW};
use lists::Lists;
use std::io::{self, Stdout, Write};
use stepper::Answered;
use text::Writer;
use walk::{Answer, Counts};

// A name, numbers of eight digits and what ends the line, in one write. Most lines are such, and a format takes longer.
#[tactic(auto, using(text::proofs::Hex::lengths))]
fn put_line(output: &mut Stdout, name: &[u8], numbers: &[u32], ending: &[u8]) -> io::Result<()>
    requires { (length name.now ≤ 6) × (length numbers.now ≤ 3) × (length ending.now ≤ 7) }
{
    let mut line = [0u8; 40];
    let mut writer = Writer::new(&mut line);
    writer.put_bytes(name);
    for number in numbers {
        writer.put_byte(b' ');
        writer.put_hex(8, *number);
    }
    writer.put_bytes(ending);
    let end = writer.at;
    output.write_all(&line[..end])
}

fn put_labels(output: &mut Stdout, labels: &[u32], count: usize) -> io::Result<()> {
    let (rows, _) = labels.as_chunks::<LABEL_ROW>();
    for row in rows.iter().take(count) {
        put_line(output, b"label", row, b"\n")?;
    }
    Ok(())
}

fn put_pools(output: &mut Stdout, pools: &[u32], count: usize) -> io::Result<()> {
    let (rows, _) = pools.as_chunks::<POOL_ROW>();
    for [address, value, mark] in rows.iter().take(count) {
        let usage: &[u8] = if *mark == 1 { b" call\n" } else { b" other\n" };
        put_line(output, b"pool", &[*address, *value], usage)?;
    }
    Ok(())
}

fn put_tables(output: &mut Stdout, name: &[u8], tables: &[u32], count: usize) -> io::Result<()>
    requires { length name.now ≤ 6 }
{
    let (rows, _) = tables.as_chunks::<TABLE_ROW>();
    for row in rows.iter().take(count) {
        put_line(output, name, row, b"\n")?;
    }
    Ok(())
}

fn put_calls(output: &mut Stdout, calls: &[u32], count: usize) -> io::Result<()> {
    let (rows, _) = calls.as_chunks::<CALL_ROW>();
    for [address, word, destination, mode] in rows.iter().take(count) {
        let mode: &[u8] = if *mode == 0 { b" arm\n" } else { b" thumb\n" };
        put_line(output, b"call", &[*address, *word, *destination], mode)?;
    }
    Ok(())
}

// The first place after the rows that does not hold zero: a walk leaves none. One function for every width; no `Rows`, since nothing has checked
// them.
fn put_rest(
    output: &mut Stdout,
    list: u32,
    rows: &[u32],
    stride: usize,
    count: usize,
) -> io::Result<()>
    requires { 0 < stride }
{
    let end = stride * count.min(rows.len() / stride);
    let left = rows[end..].iter().position(|value| *value != 0);
    if let Some(past) = left {
        let i = end + past;
        let value = rows[i];
        println!(output; "place {list:08x} {i:08x} {value:08x}")?;
    }
    Ok(())
}

fn put_lists(output: &mut Stdout, n: Counts, lists: &Lists<&mut [u32]>) -> io::Result<()> {
    put_labels(output, lists.labels, n.labels)?;
    put_pools(output, lists.pools, n.pools)?;
    put_tables(output, b"jump", lists.jump_tables, n.jump_tables)?;
    put_tables(output, b"inline", lists.inline_tables, n.inline_tables)?;
    put_calls(output, lists.calls, n.calls)?;
    put_rest(output, 1, lists.labels, LABEL_ROW, n.labels)?;
    put_rest(output, 2, lists.pools, POOL_ROW, n.pools)?;
    put_rest(output, 3, lists.jump_tables, TABLE_ROW, n.jump_tables)?;
    put_rest(output, 4, lists.inline_tables, TABLE_ROW, n.inline_tables)?;
    put_rest(output, 5, lists.calls, CALL_ROW, n.calls)
}

// `is_full`: with the register of an 11, which the stored answers of the Rust do not have.
fn put_answer(output: &mut Stdout, answer: Answer, is_full: bool) -> io::Result<()> {
    match answer {
        Answer::Going => println!(output; "going"),
        Answer::Accepted(r) => {
            let (start, end) = (r.start, r.end);
            let (first, last_end) = (r.first_instruction, r.last_instruction_end);
            let saved = r.saved_registers;
            println!(output; "function {start:08x} {end:08x} {first:08x} {last_end:08x} {saved:02}")
        }
        Answer::Refused {
            refusal,
            address,
            register,
        } => {
            let number = u8::from(refusal);
            println!(output; "refused {number} {address:08x}")?;
            if is_full && refusal == Refusal::UndefinedRegister {
                println!(output; "register {register:02}")?;
            }
            Ok(())
        }
    }
}

// A begin is written where it is refused.
pub fn put_begin(
    output: &mut Stdout,
    is_full: bool,
    begun: Answered,
    lists: &Lists<&mut [u32]>,
) -> io::Result<()> {
    if begun.answer == Answer::Going {
        return Ok(());
    }
    put_answer(output, begun.answer, is_full)?;
    put_lists(output, begun.walk.counts, lists)
}

// A step from the address `before`, unless it repeats the end that `said` is.
pub fn put_step(
    output: &mut Stdout,
    is_full: bool,
    said: Answer,
    before: u32,
    next: Answered,
    lists: &Lists<&mut [u32]>,
) -> io::Result<()> {
    let answer = next.answer;
    if said != Answer::Going && said == answer {
        return Ok(());
    }
    if answer == Answer::Going {
        let after = next.walk.progress.address;
        put_line(output, b"step", &[before, after], b"\n")?;
    } else {
        put_answer(output, answer, is_full)?;
    }
    put_lists(output, next.walk.counts, lists)
}

pub fn put_finish(output: &mut Stdout, answer: Answer) -> io::Result<()> {
    output.write_all(b"finish ")?;
    put_answer(output, answer, true)
}

// The finish after the end.
pub fn put_end(output: &mut Stdout, answer: Answer, said: Answer) -> io::Result<()> {
    if said == answer {
        return Ok(());
    }
    put_finish(output, answer)
}
