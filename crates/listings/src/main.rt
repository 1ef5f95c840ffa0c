// Reads inputs of `listfn` one after another, each behind a count of its bytes (four, big-endian), and writes what `listfn` writes for each.
#![tactic(auto)]

ghost use Rattle.std.specs.Prelude.{IfOk, ◌≤◌, length};

use finder::output::write_listing;
use lists::Lists;
use std::io::{self, Stdin, Stdout};

const MOST_INPUTS: usize = 100_000_000;

fn list(output: &mut Stdout, input: &[u8], out: &mut [u8; 128048]) -> io::Result<()> {
    // The arrays that `listfn` has in `main`, as document 01 has them there.
    let mut labels = [0u32; 1024];
    let mut pools = [0u32; 3 * 1024];
    let mut jump_tables = [0u32; 2 * 64];
    let mut inline_tables = [0u32; 2 * 64];
    let mut calls = [0u32; 4 * 1024];
    let mut lists = Lists {
        labels: &mut labels[..],
        pools: &mut pools[..],
        jump_tables: &mut jump_tables[..],
        inline_tables: &mut inline_tables[..],
        calls: &mut calls[..],
    };
    write_listing(output, input, &mut lists, &mut out[..])
}

// The next bytes, as many as the count says or are left.
fn read_next(from: &mut Stdin, input: &mut [u8], count: usize) -> io::Result<usize>
    requires { count ≤ length input.old }
    ensures { IfOk result (λ n. n ≤ length input.old) }
{
    streams::read_full(from, &mut input[..count])
}

// False at the end, and where a count is above what `listfn` reads.
fn list_next(
    from: &mut Stdin,
    output: &mut Stdout,
    input: &mut [u8; 16411],
    out: &mut [u8; 128048],
) -> io::Result<bool> {
    let mut head = [0u8; 4];
    if streams::read_full(from, &mut head)? < 4 {
        return Ok(false);
    }
    let count = u32::from_be_bytes(head) as usize;
    if 16411 < count {
        return Ok(false);
    }
    let n = read_next(from, &mut input[..], count)?;
    list(output, &input[..n], out)?;
    Ok(true)
}

fn list_all(
    from: &mut Stdin,
    output: &mut Stdout,
    input: &mut [u8; 16411],
    out: &mut [u8; 128048],
) -> io::Result<()> {
    for _ in 0..MOST_INPUTS {
        if !list_next(from, output, input, out)? {
            break;
        }
    }
    Ok(())
}

// The buffers are lent by a function that does nothing else, since a proof about so long an array is slow.
fn main(rt: HostRuntime) -> io::Result<()> {
    let mut input = [0u8; 16411];
    let mut out = [0u8; 128048];
    list_all(&mut rt.stdin(), &mut rt.stdout(), &mut input, &mut out)
}
