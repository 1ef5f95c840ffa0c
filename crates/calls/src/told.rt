// A list of calls in a slice of records, told in one pass over all of them, and a change of the records in another. Nothing is asked of the
// records or of a count, so a host that doesn't know whether its list is a map can ask that too.
//
// Two functions pass over the records: `tell`, the lookup, and `put`, the insert. The rest is left to functions over numbers.
ghost use Rattle.std.specs.Prelude.{◌≡◌};
ghost use Rattle.base.specs.Choice.{pick};
ghost use Rattle.calls.specs.Records.{edited, clearing, is_none, seen_by, Tells, Enters};

use crate::Call;
use base::refusal::Refusal;

// What is asked of a list of `count` calls for an address, and what the records tell of it, from the last to the first.
#[derive(Clone, Copy)]
pub struct Told {
    pub count: usize,
    pub address: u32,
    // how many records there are
    pub places: usize,
    // the address of the call that was passed last
    pub next: u32,
    // there is room for the count, the calls ascend by address, and zeros follow them
    pub is_ordered: bool,
    // a call goes to the instruction after the address
    pub is_called: bool,
    // where a call from the address stands or belongs, and whether it stands there
    pub at: usize,
    pub is_held: bool,
}

// A change of the records from `from` to `end`: `call` stands at `from`, and each that stood there moves up by one; or, where
// nothing moves, `call` stands at every place.
#[derive(Clone, Copy)]
pub struct Edit {
    pub from: usize,
    pub end: usize,
    pub call: Call,
    pub moves: bool,
}

// What entering a call left, and the change that does it.
#[derive(Clone, Copy)]
pub struct Entry {
    pub entered: Result<usize, Refusal>,
    pub edit: Edit,
}

fn is_none(c: Call) -> bool
    ensures { result ≡ is_none c }
{
    c == Call::default()
}

// What the record at place `i` tells, with those after it.
fn seen(t: Told, i: usize, c: Call) -> Told
    ensures { result ≡ seen_by t i c }
{
    if t.count <= i {
        return Told {
            is_ordered: is_none(c) & t.is_ordered,
            at: i,
            ..t
        };
    }
    let met = Told {
        next: c.address,
        is_ordered: ((t.count <= i + 1) | (c.address < t.next)) & t.is_ordered,
        is_called: (c.destination as u64 == t.address as u64 + 4) | t.is_called,
        ..t
    };
    if c.address < t.address {
        return met;
    }
    Told {
        at: i,
        is_held: c.address == t.address,
        ..met
    }
}

// The lookup: what all records tell of a list of `count` calls for an address.
pub fn tell(calls: &[Call], count: usize, address: u32) -> Told
    ensures { Tells calls.now count address result }
{
    let places = calls.len();
    let mut t = Told {
        count,
        address,
        places,
        next: 0,
        is_ordered: count <= places,
        is_called: false,
        at: places,
        is_held: false,
    };
    for i in (0..places).rev() {
        t = seen(t, i, calls[i]);
    }
    t
}

// Zeros in the first records, up to `end`.
pub fn clear(end: usize) -> Edit
    ensures { result ≡ clearing end }
{
    Edit {
        from: 0,
        end,
        call: Call::default(),
        moves: false,
    }
}

// The last place that an insert writes: the held call's, or the first behind the calls.
fn last_of(t: Told) -> usize
    ensures { result ≡ pick t.is_held t.at t.count }
{
    if t.is_held { t.at } else { t.count }
}

// How many calls there are once a place up to `end` is written.
fn count_of(t: Told, end: usize) -> usize
    ensures { result ≡ pick t.is_held t.count end }
{
    if t.is_held { t.count } else { end }
}

// A call from the address that was asked for is entered: it replaces the one that stands there, or needs a free place.
pub fn enter(t: Told, call: Call) -> Entry
    ensures { Enters t call result }
{
    let last = last_of(t);
    if t.places <= last {
        return Entry {
            entered: Err(Refusal::ListFull),
            edit: clear(0),
        };
    }
    let end = last + 1;
    Entry {
        entered: Ok(count_of(t, end)),
        edit: Edit {
            from: t.at,
            end,
            call,
            moves: true,
        },
    }
}

// The insert, or any other change of the records.
pub fn put(calls: &mut [Call], e: Edit)
    ensures { calls.new ≡ edited e calls.old }
{
    let end = e.end.min(calls.len());
    let mut call = e.call;
    for i in e.from..end {
        let next = calls[i];
        calls[i] = call;
        if e.moves {
            call = next;
        }
    }
}
