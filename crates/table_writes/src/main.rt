// Reads tables in lent lists one after another and writes what the writer of a table's file leaves for each. A table is eight numbers (four bytes
// each, big-endian) and the numbers of its lists: how many functions; how many bytes the output has; how many numbers each list has. What is
// written is a line, `ok` or `refused N 00000000`, and every byte of the output.
#![tactic(auto)]

ghost use Rattle.std.specs.Prelude.{IfOk, ◌≤◌, length};

use base::refusal::Refusal;
use listing::put_refusal;
use std::io::{self, Stdin, Stdout, Write};
use table::{Entries, Table};
use text::Writer;

const MOST_TABLES: usize = 100_000_000;

// The most numbers of a list, and the most bytes of an output.
const MOST: usize = 4096;

// What a byte of the output holds before.
const BEFORE: u8 = 0xEE;

#[derive(Drop)]
struct Lists {
    functions: [u32; MOST],
    labels: [u32; MOST],
    pools: [u32; MOST],
    jump_tables: [u32; MOST],
    inline_tables: [u32; MOST],
    calls: [u32; MOST],
}

// A number, or none at the end.
fn read_number(from: &mut Stdin) -> io::Result<Option<u32>> {
    let mut bytes = [0u8; 4];
    if streams::read_full(from, &mut bytes)? < 4 {
        return Ok(None);
    }
    Ok(Some(u32::from_be_bytes(bytes)))
}

// So many numbers at the start of a list, or as many as it has places for; how many those are.
fn read_list(from: &mut Stdin, list: &mut [u32; MOST], count: u32) -> io::Result<usize>
    ensures { IfOk result (λ n. n ≤ 4096) }
{
    let count = (count as usize).min(MOST);
    for place in list[..count].iter_mut() {
        *place = read_number(from)?.unwrap_or(0);
    }
    Ok(count)
}

fn put_answer(output: &mut Stdout, answer: Result<usize, Refusal>) -> io::Result<()> {
    match answer {
        Ok(_) => output.write_all(b"ok\n"),
        Err(refusal) => {
            let mut line = [0u8; 45];
            let mut writer = Writer::new(&mut line[..]);
            put_refusal(&mut writer, refusal, 0);
            let end = writer.at;
            output.write_all(&line[..end])
        }
    }
}

// False at the end.
fn write_next(
    from: &mut Stdin,
    output: &mut Stdout,
    lists: &mut Lists,
    out: &mut [u8; MOST],
) -> io::Result<bool> {
    let Some(count) = read_number(from)? else {
        return Ok(false);
    };
    let mut lengths = [0u32; 7];
    for length in lengths.iter_mut() {
        *length = read_number(from)?.unwrap_or(0);
    }
    let [
        places,
        functions,
        labels,
        pools,
        jump_tables,
        inline_tables,
        calls,
    ] = lengths;
    let functions = read_list(from, &mut lists.functions, functions)?;
    let labels = read_list(from, &mut lists.labels, labels)?;
    let pools = read_list(from, &mut lists.pools, pools)?;
    let jump_tables = read_list(from, &mut lists.jump_tables, jump_tables)?;
    let inline_tables = read_list(from, &mut lists.inline_tables, inline_tables)?;
    let calls = read_list(from, &mut lists.calls, calls)?;
    let table = Table {
        functions: &lists.functions[..functions],
        count: count as usize,
        entries: Entries {
            labels: &lists.labels[..labels],
            pools: &lists.pools[..pools],
            jump_tables: &lists.jump_tables[..jump_tables],
            inline_tables: &lists.inline_tables[..inline_tables],
            calls: &lists.calls[..calls],
        },
    };
    let out = &mut out[..(places as usize).min(MOST)];
    out.fill(BEFORE);
    let answer = table.write(out);
    put_answer(output, answer)?;
    output.write_all(out)?;
    Ok(true)
}

fn write_all(
    from: &mut Stdin,
    output: &mut Stdout,
    lists: &mut Lists,
    out: &mut [u8; MOST],
) -> io::Result<()> {
    for _ in 0..MOST_TABLES {
        if !write_next(from, output, lists, out)? {
            break;
        }
    }
    Ok(())
}

// The arrays are lent by a function that does nothing else, since a proof about so long an array is slow.
fn main(rt: HostRuntime) -> io::Result<()> {
    let mut lists = Lists {
        functions: [0; MOST],
        labels: [0; MOST],
        pools: [0; MOST],
        jump_tables: [0; MOST],
        inline_tables: [0; MOST],
        calls: [0; MOST],
    };
    let mut out = [0u8; MOST];
    write_all(&mut rt.stdin(), &mut rt.stdout(), &mut lists, &mut out)
}
