// The whole walk in one call: what begin, steps until the end and finish give. What the checks ask for holds again after each step, so they are
// made once.
#![tactic(auto)]

ghost use Rattle.std.specs.Prelude.{suc, ◌+◌, ◌≤◌, length};
ghost use Rattle.context.specs.Lists.{AllHeld, Sound, maps_in, given_to};
ghost use Rattle.invariants.specs.Turns.{turns_from};
ghost use Rattle.lists.specs.Lists.{lists_of, IsSame};
ghost use Rattle.stepper.specs.Stepper.{Called};
ghost use Rattle.turn.specs.Turning.{Turns};
ghost use Rattle.whole.specs.Whole.{run};

use calls::CallList;
use context::Module;
use lists::Lists;
use stepper::{Answered, is_going};
use turn::turn;
use walk::{Counts, Walk};

// On until the walk has a result: a `while`, since how many turns that takes is known by the walk alone.
fn walk_on<C: CallList>(m: Module, w: Walk, lists: &mut Lists<C>) -> Walk
    requires { Sound m × AllHeld w.counts (lists_of C.numbers lists.old) × (w.progress.start + w.progress.instruction_bytes ≤ w.progress.address) }
    ensures same { IsSame C.is_same lists.old lists.new }
    ensures turns { Turns result (lists_of C.numbers lists.old) (lists_of C.numbers lists.new) (turns_from (given_to m.entry (lists_of C.numbers lists.old)) (suc (length m.entry.code.now)) (record { walk = w; maps = maps_in w.counts (lists_of C.numbers lists.old) })) }
{
    let mut here = w;
    while is_going(here.result) {
        here = turn(m, here, lists);
    }
    here
}

// Begin, steps until the end, and finish. A begin that is refused is the answer.
pub fn run<C: CallList>(m: Module, start: u32, lists: &mut Lists<C>, counts: Counts) -> Answered
    ensures same { IsSame C.is_same lists.old lists.new }
    ensures called { Called result (lists_of C.numbers lists.new) (run m.entry.options m.entry.code.now m.entry.starts.now start counts (lists_of C.numbers lists.old)) }
{
    let begun = stepper::begin(m, start, lists, counts);
    if !is_going(begun.answer) {
        return begun;
    }
    let walk = walk_on(m, begun.walk, lists);
    let answer = walk.result;
    Answered { walk, answer }
}
