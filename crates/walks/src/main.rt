// Reads requests from standard input, one after another, runs the walk on each, and writes what stands after every call: the program that is
// compared with the Rust.
//
// A request is a length of what follows, a version byte, base, module start, module end, start, known end (0: none), a check byte and the
// code; each number has four bytes, big-endian. Version 2 has a count of existing starts and the starts before the code. Version 3 has after
// them the rows of the five lists, how many numbers more each is lent, a count of planned turns, and eleven numbers for each turn: finish or
// not, two parts of the state with a value (0: none), and two places of a list with a value (list 0: none), all handed in before the turn's
// step. compare/README.md has the numbers of parts and lists, and the lines that are written.
//
// A run is a begin; the planned turns; steps until one does not go on; one step more; and a finish. These last two are written only where
// they do not give the end's answer again, so that what is written for versions 1 and 2 is the Rust's own listing.
#![tactic(auto)]

mod changes;
mod listing;
mod request;

use context::Module;
use lists::Lists;
use request::Request;
use std::io::{self, Stdin, Stdout, Write};
use stepper::Answered;
use walk::{Answer, Walk};

// More steps than the longest request has bytes.
const TURNS: usize = 0x1_0100;

const MOST_REQUESTS: usize = 100_000_000;

// A begin, written where it is refused.
fn begin(
    output: &mut Stdout,
    r: Request,
    m: Module,
    lists: &mut Lists<&mut [u32]>,
) -> io::Result<Walk> {
    let begun = stepper::begin(m, r.start, lists, request::SOME_COUNTS);
    listing::put_begin(output, r.is_full, begun, lists)?;
    Ok(begun.walk)
}

// A step, written unless it repeats the end that `said` is.
fn take_step(
    output: &mut Stdout,
    is_full: bool,
    m: Module,
    said: Answer,
    w: Walk,
    lists: &mut Lists<&mut [u32]>,
) -> io::Result<Answered> {
    let next = stepper::step(m, w, lists);
    listing::put_step(output, is_full, said, w.progress.address, next, lists)?;
    Ok(next)
}

// The turns, from the planned ones to a step after the end; what the steps after the planned ones have come to.
fn take_turns(
    output: &mut Stdout,
    body: &[u8],
    r: Request,
    m: Module,
    begun: Walk,
    lists: &mut Lists<&mut [u32]>,
) -> io::Result<(Walk, Answer)> {
    let mut w = begun;
    let mut said = Answer::Going;
    for turn in 0..TURNS {
        let planned = changes::turn_at(body, r, turn);
        changes::set_places(planned, lists);
        w = changes::prepared(output, w, planned)?;
        let next = take_step(output, r.is_full, m, said, w, lists)?;
        w = next.walk;
        if turn < r.turns {
            continue;
        }
        if said != Answer::Going {
            break;
        }
        said = next.answer;
    }
    Ok((w, said))
}

fn run(
    output: &mut Stdout,
    body: &[u8],
    r: Request,
    m: Module,
    lists: &mut Lists<&mut [u32]>,
) -> io::Result<()> {
    let begun = begin(output, r, m, lists)?;
    let (w, said) = take_turns(output, body, r, m, begun, lists)?;
    listing::put_end(output, stepper::finish(w), said)
}

// As much of a list as the request says.
fn lent(list: &mut [u32], length: usize) -> &mut [u32] {
    let end = length.min(list.len());
    &mut list[..end]
}

// The lists hold anything at first.
fn lend(output: &mut Stdout, body: &[u8], r: Request, m: Module) -> io::Result<()> {
    let lengths = r.lengths;
    let mut labels = [7u32; 1024];
    let mut pools = [7u32; 3072];
    let mut jump_tables = [7u32; 128];
    let mut inline_tables = [7u32; 128];
    let mut calls = [7u32; 4096];
    let mut lists = Lists {
        labels: lent(&mut labels, lengths.labels),
        pools: lent(&mut pools, lengths.pools),
        jump_tables: lent(&mut jump_tables, lengths.jump_tables),
        inline_tables: lent(&mut inline_tables, lengths.inline_tables),
        calls: lent(&mut calls, lengths.calls),
    };
    run(output, body, r, m, &mut lists)
}

fn serve(output: &mut Stdout, body: &[u8]) -> io::Result<()> {
    let r = request::read(body);
    let starts = request::read_starts(body);
    let m = Module {
        options: r.options,
        code: &body[r.code.min(body.len())..],
        starts: &starts[..r.starts],
    };
    lend(output, body, r, m)
}

fn serve_into(
    from: &mut Stdin,
    output: &mut Stdout,
    body: &mut [u8],
    length: usize,
    is_first: bool,
) -> io::Result<()> {
    let n = length.min(body.len());
    let body = &mut body[..n];
    streams::read_full(from, body)?;
    if !is_first {
        output.write_all(b"\n")?;
    }
    serve(output, body)
}

// The buffer is lent by a function that does nothing else, since a proof about so long an array is slow.
fn serve_body(
    from: &mut Stdin,
    output: &mut Stdout,
    length: usize,
    is_first: bool,
) -> io::Result<()> {
    let mut body = [0u8; 65536];
    serve_into(from, output, &mut body[..], length, is_first)
}

// False at the input's end.
fn serve_next(from: &mut Stdin, output: &mut Stdout, is_first: bool) -> io::Result<bool> {
    let mut head = [0u8; 4];
    if streams::read_full(from, &mut head)? < 4 {
        return Ok(false);
    }
    let length = u32::from_be_bytes(head) as usize;
    serve_body(from, output, length, is_first)?;
    Ok(true)
}

fn main(rt: HostRuntime) -> io::Result<()> {
    let mut from = rt.stdin();
    let mut output = rt.stdout();
    for turn in 0..MOST_REQUESTS {
        if !serve_next(&mut from, &mut output, turn == 0)? {
            break;
        }
    }
    Ok(())
}
