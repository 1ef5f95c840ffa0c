// Reads a request for a module's table from standard input. Writes the file of the accepted functions to standard output, and a line for each
// refused start to standard error.
#![tactic(auto)]

use append::TableMut;
use std::io::{self, Stderr, Stdin, Stdout, Write};
use tabling::tabulate;

// The lists of a table: rows one after another. A function has ten numbers, a pool three, a table two, a call four.
#[derive(Drop)]
struct Arrays {
    functions: [u32; 10 * 256],
    labels: [u32; 1024],
    pools: [u32; 3 * 1024],
    jump_tables: [u32; 2 * 64],
    inline_tables: [u32; 2 * 64],
    calls: [u32; 4 * 1024],
}

fn make(
    from: &mut Stdin,
    output: &mut Stdout,
    errors: &mut Stderr,
    input: &mut [u8; 17431],
    labels: &mut [u32; 1024],
    pools: &mut [u32; 3 * 1024],
    jump_tables: &mut [u32; 2 * 64],
    inline_tables: &mut [u32; 2 * 64],
    calls: &mut [u32; 4 * 1024],
    lent: &mut Arrays,
    out: &mut [u8; 36873],
    lines: &mut [u8; 7725],
) -> io::Result<()> {
    let n = streams::read_full(from, &mut input[..])?;
    let mut table = TableMut {
        functions: &mut lent.functions[..],
        count: 0,
        labels: &mut lent.labels[..],
        pools: &mut lent.pools[..],
        jump_tables: &mut lent.jump_tables[..],
        inline_tables: &mut lent.inline_tables[..],
        calls: &mut lent.calls[..],
    };
    let written = tabulate(
        &input[..n],
        &mut labels[..],
        &mut pools[..],
        &mut jump_tables[..],
        &mut inline_tables[..],
        &mut calls[..],
        &mut table,
        &mut out[..],
        &mut lines[..],
    );
    errors.write_all(&lines[..written.lines])?;
    output.write_all(&out[..written.file])
}

// It holds and lends the arrays and does nothing else, since the checker is slow where a function holds so long ones and has a goal.
fn main(rt: HostRuntime) -> io::Result<()> {
    // One byte more than is taken, so that a longer input is seen as too long.
    let mut input = [0u8; 17431];
    let mut labels = [0u32; 1024];
    let mut pools = [0u32; 3 * 1024];
    let mut jump_tables = [0u32; 2 * 64];
    let mut inline_tables = [0u32; 2 * 64];
    let mut calls = [0u32; 4 * 1024];
    let mut lent = Arrays {
        functions: [0; 10 * 256],
        labels: [0; 1024],
        pools: [0; 3 * 1024],
        jump_tables: [0; 2 * 64],
        inline_tables: [0; 2 * 64],
        calls: [0; 4 * 1024],
    };
    // 9 bytes, 36 for each function, and 4, 9, 8, 8 and 13 for each entry.
    let mut out = [0u8; 36873];
    // 30 bytes for each start, and 45 for a line about the whole.
    let mut lines = [0u8; 7725];
    make(
        &mut rt.stdin(),
        &mut rt.stdout(),
        &mut rt.stderr(),
        &mut input,
        &mut labels,
        &mut pools,
        &mut jump_tables,
        &mut inline_tables,
        &mut calls,
        &mut lent,
        &mut out,
        &mut lines,
    )
}
