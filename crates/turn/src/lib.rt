// One turn of the walk's loop over the five lists: the word at the walk's address, handle_ins, and what that comes to.
#![tactic(auto)]

ghost use Rattle.std.specs.Prelude.{◌+◌, ◌≤◌};
ghost use Rattle.context.specs.Lists.{AllHeld, Sound, maps_in, given_to};
ghost use Rattle.context.specs.Turn.{turn};
ghost use Rattle.lists.specs.Lists.{lists_of, IsSame};
ghost use Rattle.turn.specs.Turning.{Looks, Turns};

use base::refusal::Refusal;
use base::word::word_from;
use calls::CallList;
use context::{Handled, Module, Parsed, with_saved};
use handle_ins::handle_ins;
use lists::Lists;
use outcome::{is_refused, no_counts, refused_walk, settle, state_of, with_counts};
use walk::Walk;

// An ARM instruction's bytes.
const ARM_SIZE: u32 = 4;

// The walk after the word at its address, with the entries that the step left.
#[inline(always)]
fn look<C: CallList>(m: Module, w: Walk, lists: &mut Lists<C>) -> Walk
    requires { Sound m × AllHeld w.counts (lists_of C.numbers lists.old) × (w.progress.start + w.progress.instruction_bytes ≤ w.progress.address) }
    ensures same { IsSame C.is_same lists.old lists.new }
    ensures looks { Looks result (lists_of C.numbers lists.old) (lists_of C.numbers lists.new) (turn (given_to m.entry (lists_of C.numbers lists.old)) w (maps_in w.counts (lists_of C.numbers lists.old))) }
{
    let address = w.progress.address;
    match word_from(m.code, m.options.base, address) {
        Some(word) => {
            let ins = arm::decode(word, address);
            let size = ARM_SIZE;
            let mut registers = w.registers;
            let parsed = Parsed { ins, word, size };
            let ready = with_saved(state_of(w), ins);
            let stepped = handle_ins(m, ready, &mut registers, parsed, lists);
            // By a `&mut`: a field lent straight as `&` is not proved to stay as it was.
            let pools = &mut *lists.pools;
            settle(m.options, w, Handled { stepped, registers }, pools)
        }
        None => refused_walk(w, w.counts, Refusal::NoEpilogue, 0, 0),
    }
}

// One turn. A refusal that ends the walk leaves no entries.
#[inline(always)]
pub fn turn<C: CallList>(m: Module, w: Walk, lists: &mut Lists<C>) -> Walk
    requires { Sound m × AllHeld w.counts (lists_of C.numbers lists.old) × (w.progress.start + w.progress.instruction_bytes ≤ w.progress.address) }
    ensures same { IsSame C.is_same lists.old lists.new }
    ensures turns { Turns result (lists_of C.numbers lists.old) (lists_of C.numbers lists.new) (turn (given_to m.entry (lists_of C.numbers lists.old)) w (maps_in w.counts (lists_of C.numbers lists.old))) }
{
    let after = look(m, w, lists);
    if is_refused(after.result) {
        lists.clear(after.counts);
        return with_counts(after, no_counts());
    }
    after
}
