// What a request says.
ghost use Rattle.std.specs.Prelude.{◌≤◌};

use context::{CALL_ROW, LABEL_ROW, POOL_ROW, TABLE_ROW};
use walk::{Counts, Options};

const MOST_STARTS: usize = 64;

const MOST_TURNS: usize = 64;

pub const TURN_BYTES: usize = 44;

// `starts` existing starts, `lengths` of the five lists, `turns` that begin at the byte `script`, and the code from the byte `code` on.
// `is_full` is a request that the Rust cannot be asked.
#[derive(Clone, Copy)]
pub struct Request {
    pub is_full: bool,
    pub options: Options,
    pub start: u32,
    pub starts: usize,
    pub lengths: Counts,
    pub turns: usize,
    pub script: usize,
    pub code: usize,
    ghost within: { (starts ≤ 64) × (script ≤ 0x1000) × (turns ≤ 64) },
}

// What lies past the end reads as 0, here and below.
fn byte(bytes: &[u8], at: usize) -> u8 {
    bytes.get(at).copied().unwrap_or(0)
}

// Four bytes, big-endian.
pub fn number(bytes: &[u8], at: usize) -> u32 {
    let mut four = [0; 4];
    for (to, from) in four.iter_mut().zip(bytes.iter().skip(at)) {
        *to = *from;
    }
    u32::from_be_bytes(four)
}

// 0 is no known end, as in `listfn`'s request, which is another format.
fn known(end: u32) -> Option<u32> {
    (end != 0).then_some(end)
}

fn options(body: &[u8]) -> Options {
    Options {
        base: number(body, 1),
        module_start: number(body, 5),
        module_end: number(body, 9),
        known_end: known(number(body, 17)),
        check: byte(body, 21) == 1,
    }
}

// All that there is of each list.
const MOST_LENGTHS: Counts = Counts {
    labels: 1024 * LABEL_ROW,
    pools: 1024 * POOL_ROW,
    jump_tables: 64 * TABLE_ROW,
    inline_tables: 64 * TABLE_ROW,
    calls: 1024 * CALL_ROW,
};

// So many rows of each list, and some numbers more.
fn lengths_at(body: &[u8], at: usize) -> Counts
    requires { at ≤ 0x1000 }
{
    let more = number(body, at + 20) as usize;
    Counts {
        labels: number(body, at) as usize * LABEL_ROW + more,
        pools: number(body, at + 4) as usize * POOL_ROW + more,
        jump_tables: number(body, at + 8) as usize * TABLE_ROW + more,
        inline_tables: number(body, at + 12) as usize * TABLE_ROW + more,
        calls: number(body, at + 16) as usize * CALL_ROW + more,
    }
}

// Versions 1 and 2, as the Rust reads them: no turns, lists as long as there are.
fn plain(body: &[u8], starts: usize, code: usize) -> Request
    requires { (starts ≤ 64) × (code ≤ 0x1000) }
{
    Request {
        is_full: false,
        options: options(body),
        start: number(body, 13),
        starts,
        lengths: MOST_LENGTHS,
        turns: 0,
        script: code,
        code,
    }
}

pub fn read(body: &[u8]) -> Request {
    let version = byte(body, 0);
    if version < 2 {
        return plain(body, 0, 22);
    }
    let starts = MOST_STARTS.min(number(body, 22) as usize);
    let at = 26 + 4 * starts;
    if version == 2 {
        return plain(body, starts, at);
    }
    let turns = MOST_TURNS.min(number(body, at + 24) as usize);
    let script = at + 28;
    Request {
        is_full: true,
        options: options(body),
        start: number(body, 13),
        starts,
        lengths: lengths_at(body, at),
        turns,
        script,
        code: script + TURN_BYTES * turns,
    }
}

pub fn read_starts(body: &[u8]) -> [u32; MOST_STARTS] {
    let mut starts = [0u32; MOST_STARTS];
    for (i, start) in starts.iter_mut().enumerate() {
        *start = number(body, 26 + 4 * i);
    }
    starts
}

// Counts of lists that hold anything.
pub const SOME_COUNTS: Counts = Counts {
    labels: 3,
    pools: 3,
    jump_tables: 3,
    inline_tables: 3,
    calls: 3,
};
