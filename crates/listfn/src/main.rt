// Reads a request from standard input, and writes the listing of the function that starts there.
#![tactic(auto)]

use finder::output::write_listing;
use lists::Lists;
use std::io::{self, Stdin, Stdout};

fn list(
    from: &mut Stdin,
    output: &mut Stdout,
    input: &mut [u8; 16411],
    labels: &mut [u32; 1024],
    pools: &mut [u32; 3 * 1024],
    jump_tables: &mut [u32; 2 * 64],
    inline_tables: &mut [u32; 2 * 64],
    calls: &mut [u32; 4 * 1024],
    out: &mut [u8; 128048],
) -> io::Result<()> {
    let n = streams::read_full(from, &mut input[..])?;
    let mut lists = Lists {
        labels: &mut labels[..],
        pools: &mut pools[..],
        jump_tables: &mut jump_tables[..],
        inline_tables: &mut inline_tables[..],
        calls: &mut calls[..],
    };
    write_listing(output, &input[..n], &mut lists, &mut out[..])
}

// It holds and lends the arrays and does nothing else, since the checker is slow where a function holds so long ones and has a goal.
fn main(rt: HostRuntime) -> io::Result<()> {
    // One byte more than is taken, so that a longer input is seen as too long.
    let mut input = [0u8; 16411];
    // Rows one after another: a pool has three numbers, a table two, a call four.
    let mut labels = [0u32; 1024];
    let mut pools = [0u32; 3 * 1024];
    let mut jump_tables = [0u32; 2 * 64];
    let mut inline_tables = [0u32; 2 * 64];
    let mut calls = [0u32; 4 * 1024];
    // A first line of 48 bytes, and 40 for each entry.
    let mut out = [0u8; 128048];
    list(
        &mut rt.stdin(),
        &mut rt.stdout(),
        &mut input,
        &mut labels,
        &mut pools,
        &mut jump_tables,
        &mut inline_tables,
        &mut calls,
        &mut out,
    )
}
