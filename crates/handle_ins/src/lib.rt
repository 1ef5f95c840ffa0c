// handle_ins over the five lists: the blocks of a step, and the call that they put in its list. Marked to be inlined, as `turn` and
// `handling` are: in one function the compiler copies the state less (docs/SPEED.md).
#![tactic(auto)]

ghost use Rattle.std.specs.Prelude.{◌≡◌, true, ◌+◌, ◌<◌, ◌^◌, length};
ghost use Rattle.context.specs.Context.{call_row};
ghost use Rattle.context.specs.Blocks.{is_destination, handle_ins};
ghost use Rattle.context.specs.Lists.{AllHeld, given_to};
ghost use Rattle.context.specs.State.{asks_calls};
ghost use Rattle.lists.specs.Lists.{lists_of, IsSame};
ghost use Rattle.rows.specs.Map.{Held, map_in};
ghost use Rattle.handle_ins.specs.Handles.{context_in, NoCall, Inner, with_entry, Stores, Handles};

use base::refusal::Refusal;
use calls::{Call, CallList};
use context::{
    Module, Parsed, State, Stepped, asks_calls, assign, in_conditional_block, is_on, load_into,
    pass,
};
use handling::{from_return, to_return};
use lists::Lists;
use registers::Registers;

// What a return asks of the calls, where it does.
#[inline(always)]
fn is_called_next<C: CallList>(
    s: State,
    size: u32,
    inside: bool,
    returns: bool,
    calls: &C,
    count: usize,
) -> bool
    requires { Held call_row count (C.numbers calls.now) × (s.progress.address + size < 2 ^ 32) }
    ensures { asks_calls size inside returns s.progress ≡ true → result ≡ is_destination (s.progress.address + size) (map_in call_row count (C.numbers calls.now)) }
{
    asks_calls(s, size, inside, returns) && calls.is_destination(count, s.progress.address + size)
}

// The blocks of a step. The call that they put comes back in the state.
#[inline(always)]
fn handle_ins_inner<C: CallList>(
    m: Module,
    s: State,
    registers: &mut Registers,
    parsed: Parsed,
    lists: &mut Lists<C>,
) -> Stepped
    requires { NoCall s × AllHeld s.counts (lists_of C.numbers lists.old) × Held 1 (length m.starts.now) m.starts.now × (s.progress.address + 4 < 2 ^ 32) × (s.progress.address + parsed.size < 2 ^ 32) }
    ensures same { IsSame C.is_same lists.old lists.new }
    ensures calls { lists.new.calls ≡ lists.old.calls }
    ensures inner { Inner (given_to m.entry (lists_of C.numbers lists.old)) parsed.ins parsed.word parsed.size s registers.old (lists_of C.numbers lists.old) (lists_of C.numbers lists.new) (record { stepped = result; registers = registers.new }) }
{
    let n = s.counts;
    let ins = parsed.ins;
    // Lent first: the prover has no rule for a `&` of one field after `&mut`s of others.
    let inline_tables = &mut *lists.inline_tables;
    let r = to_return(
        s,
        registers,
        ins,
        lists.pools,
        lists.jump_tables,
        inline_tables,
    );
    if !is_on(r) {
        return r;
    }
    let t = r.state;
    // for def in ins.defs()
    registers.forget(ins.defs);
    let p = t.progress;
    let inside = in_conditional_block(t);
    let returns = predicates::is_return(p.address, ins, p.previous);
    let is_called = is_called_next(t, parsed.size, inside, returns, &lists.calls, n.calls);
    let loaded = from_return(
        m,
        t,
        parsed,
        inside,
        returns,
        is_called,
        lists.labels,
        lists.pools,
        lists.inline_tables,
    );
    // register_values[register] = ..
    load_into(registers, loaded.load);
    loaded.stepped
}

// The step once its call was entered in the list, which had `was` before it: without a place it is a refusal.
#[inline(always)]
pub fn with_entry(r: Stepped, was: usize, entered: Result<usize, Refusal>) -> Stepped
    ensures { result ≡ with_entry was entered r }
{
    let count = entered.unwrap_or(was);
    let state = assign::with_call(assign::count_calls(r.state, count), None);
    match entered {
        Ok(_) => Stepped { state, ..r },
        Err(refusal) => assign::refuse(state, refusal),
    }
}

// The step's call entered in its list, which had `count` before it, where the step has one.
#[inline(always)]
fn put_call<C: CallList>(r: Stepped, count: usize, calls: &mut C) -> Result<usize, Refusal>
    requires { Held call_row count (C.numbers calls.old) }
    ensures same { C.is_same calls.old calls.new }
    ensures places { length (C.numbers calls.new) ≡ length (C.numbers calls.old) }
    ensures stored { Stores count (C.numbers calls.old) (C.numbers calls.new) r (with_entry count result r) }
{
    let s = r.state;
    let p = s.progress;
    match s.call {
        Some(call) => {
            let entry = Call {
                address: p.address,
                word: call.word,
                destination: call.destination,
                mode: u32::from(call.mode),
            };
            calls.enter(count, entry)
        }
        None => Ok(count),
    }
}

#[inline(always)]
pub fn handle_ins<C: CallList>(
    m: Module,
    s: State,
    registers: &mut Registers,
    parsed: Parsed,
    lists: &mut Lists<C>,
) -> Stepped
    requires { NoCall s × AllHeld s.counts (lists_of C.numbers lists.old) × Held 1 (length m.starts.now) m.starts.now × (s.progress.address + 4 < 2 ^ 32) × (s.progress.address + parsed.size < 2 ^ 32) × (s.progress.instruction_bytes + parsed.size < 2 ^ 32) }
    ensures same { IsSame C.is_same lists.old lists.new }
    ensures handles { Handles (given_to m.entry (lists_of C.numbers lists.old)) (record { stepped = result; registers = registers.new }) (lists_of C.numbers lists.old) (lists_of C.numbers lists.new) (handle_ins parsed.ins parsed.word parsed.size (context_in (given_to m.entry (lists_of C.numbers lists.old)) registers.old s (lists_of C.numbers lists.old))) }
{
    let n = s.counts;
    let ready = assign::goto(s, s.progress.address + parsed.size);
    let bytes = s.progress.instruction_bytes + parsed.size;
    let r = handle_ins_inner(m, ready, registers, parsed, lists);
    let entered = put_call(r, n.calls, &mut lists.calls);
    pass(with_entry(r, n.calls, entered), parsed.ins, bytes)
}
