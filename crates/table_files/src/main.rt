// Reads inputs of `tablefn` one after another, each behind a count of its bytes (four, big-endian), and writes what `tablefn` writes for each: the
// file, and then the lines of what is refused.
#![tactic(auto)]

ghost use Rattle.std.specs.Prelude.{IfOk, ◌≤◌, length};

use append::TableMut;
use std::io::{self, Stdin, Stdout, Write};
use tabling::tabulate;

const MOST_INPUTS: usize = 100_000_000;

fn make(
    output: &mut Stdout,
    input: &[u8],
    out: &mut [u8; 36873],
    lines: &mut [u8; 7725],
) -> io::Result<()> {
    // The arrays that `tablefn` has in `main`.
    let mut labels = [0u32; 1024];
    let mut pools = [0u32; 3 * 1024];
    let mut jump_tables = [0u32; 2 * 64];
    let mut inline_tables = [0u32; 2 * 64];
    let mut calls = [0u32; 4 * 1024];
    let mut functions = [0u32; 10 * 256];
    let mut table_labels = [0u32; 1024];
    let mut table_pools = [0u32; 3 * 1024];
    let mut table_jump_tables = [0u32; 2 * 64];
    let mut table_inline_tables = [0u32; 2 * 64];
    let mut table_calls = [0u32; 4 * 1024];
    let mut table = TableMut {
        functions: &mut functions[..],
        count: 0,
        labels: &mut table_labels[..],
        pools: &mut table_pools[..],
        jump_tables: &mut table_jump_tables[..],
        inline_tables: &mut table_inline_tables[..],
        calls: &mut table_calls[..],
    };
    let written = tabulate(
        input,
        &mut labels[..],
        &mut pools[..],
        &mut jump_tables[..],
        &mut inline_tables[..],
        &mut calls[..],
        &mut table,
        &mut out[..],
        &mut lines[..],
    );
    output.write_all(&out[..written.file])?;
    output.write_all(&lines[..written.lines])
}

// The next bytes, as many as the count says or are left.
fn read_next(from: &mut Stdin, input: &mut [u8], count: usize) -> io::Result<usize>
    requires { count ≤ length input.old }
    ensures { IfOk result (λ n. n ≤ length input.old) }
{
    streams::read_full(from, &mut input[..count])
}

// False at the end, and where a count is above what `tablefn` reads.
fn make_next(
    from: &mut Stdin,
    output: &mut Stdout,
    input: &mut [u8; 17431],
    out: &mut [u8; 36873],
    lines: &mut [u8; 7725],
) -> io::Result<bool> {
    let mut head = [0u8; 4];
    if streams::read_full(from, &mut head)? < 4 {
        return Ok(false);
    }
    let count = u32::from_be_bytes(head) as usize;
    if 17431 < count {
        return Ok(false);
    }
    let n = read_next(from, &mut input[..], count)?;
    make(output, &input[..n], out, lines)?;
    Ok(true)
}

fn make_all(
    from: &mut Stdin,
    output: &mut Stdout,
    input: &mut [u8; 17431],
    out: &mut [u8; 36873],
    lines: &mut [u8; 7725],
) -> io::Result<()> {
    for _ in 0..MOST_INPUTS {
        if !make_next(from, output, input, out, lines)? {
            break;
        }
    }
    Ok(())
}

// The buffers are lent by a function that does nothing else, since a proof about so long an array is slow.
fn main(rt: HostRuntime) -> io::Result<()> {
    let mut input = [0u8; 17431];
    let mut out = [0u8; 36873];
    let mut lines = [0u8; 7725];
    make_all(
        &mut rt.stdin(),
        &mut rt.stdout(),
        &mut input,
        &mut out,
        &mut lines,
    )
}
