// What a host may do before a step: a finish, or a change of the state or the lists that no walk makes.
ghost use Rattle.std.specs.Prelude.{◌≤◌};

use crate::listing;
use crate::request::{Request, TURN_BYTES, number};
use lists::Lists;
use std::io::{self, Stdout};
use walk::Walk;

// The part of the state that gets a value; 0 is none.
#[derive(Clone, Copy, Default)]
pub struct Part {
    pub part: u32,
    pub value: u32,
}

// The place of a list that gets a value; list 0 is none.
#[derive(Clone, Copy, Default)]
pub struct Place {
    pub list: u32,
    pub at: u32,
    pub value: u32,
}

#[derive(Clone, Copy, Default)]
pub struct Turn {
    pub is_finish: bool,
    pub parts: [Part; 2],
    pub places: [Place; 2],
}

fn part_at(body: &[u8], at: usize) -> Part
    requires { at ≤ 0x10_0000 }
{
    Part {
        part: number(body, at),
        value: number(body, at + 4),
    }
}

fn place_at(body: &[u8], at: usize) -> Place
    requires { at ≤ 0x10_0000 }
{
    Place {
        list: number(body, at),
        at: number(body, at + 4),
        value: number(body, at + 8),
    }
}

// After the planned turns nothing comes before a step.
pub fn turn_at(body: &[u8], r: Request, turn: usize) -> Turn {
    if r.turns <= turn {
        return Turn::default();
    }
    let at = r.script + TURN_BYTES * turn;
    Turn {
        is_finish: number(body, at) == 1,
        parts: [part_at(body, at + 4), part_at(body, at + 12)],
        places: [place_at(body, at + 20), place_at(body, at + 32)],
    }
}

fn set(list: &mut [u32], at: u32, value: u32) {
    if let Some(number) = list.get_mut(at as usize) {
        *number = value;
    }
}

pub fn set_places(turn: Turn, lists: &mut Lists<&mut [u32]>) {
    for Place { list, at, value } in turn.places {
        match list {
            1 => set(lists.labels, at, value),
            2 => set(lists.pools, at, value),
            3 => set(lists.jump_tables, at, value),
            4 => set(lists.inline_tables, at, value),
            5 => set(lists.calls, at, value),
            _ => {}
        }
    }
}

// From 9 on, the pools that the registers came from.
fn with_part(given: Walk, change: Part) -> Walk {
    let mut w = given;
    let value = change.value;
    match change.part {
        0 => {}
        1 => w.progress.address = value,
        2 => w.progress.last_pool_address = value,
        3 => w.progress.start = value,
        4 => w.counts.labels = value as usize,
        5 => w.counts.pools = value as usize,
        6 => w.counts.jump_tables = value as usize,
        7 => w.counts.inline_tables = value as usize,
        8 => w.counts.calls = value as usize,
        part => set(&mut w.registers.sources, part - 9, value),
    }
    w
}

// The state that the step is handed. A finish is written first.
pub fn prepared(output: &mut Stdout, w: Walk, turn: Turn) -> io::Result<Walk> {
    if turn.is_finish {
        listing::put_finish(output, stepper::finish(w))?;
    }
    let [one, other] = turn.parts;
    Ok(with_part(with_part(w, one), other))
}
