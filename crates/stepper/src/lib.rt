// The function walk over a module's code, call by call: `begin`, then `step` until its answer is not `Going`, and `finish`.
#![tactic(auto)]

ghost use Rattle.std.specs.Prelude.{◌≡◌};
ghost use Rattle.lists.specs.Lists.{lists_of, IsSame};
ghost use Rattle.stepper.specs.Stepper.{Called, is_going, refused, begin, step, finish};

use base::refusal::Refusal;
use calls::CallList;
use context::Module;
use lists::Lists;
use outcome::no_counts;
use walk::into_function::new;
use walk::{Answer, Counts, Walk};

// What a call answers, with the walk that it leaves.
#[derive(Clone, Copy)]
pub struct Answered {
    pub walk: Walk,
    pub answer: Answer,
}

pub fn is_going(answer: Answer) -> bool
    ensures { result ≡ is_going answer }
{
    matches!(answer, Answer::Going)
}

pub fn refused(refusal: Refusal) -> Answer
    ensures { result ≡ refused refusal }
{
    Answer::Refused {
        refusal,
        address: 0,
        register: 0,
    }
}

// A walk from a start. Where the checks pass, every list is empty after it; else the counts come back in the walk.
pub fn begin<C: CallList>(m: Module, start: u32, lists: &mut Lists<C>, counts: Counts) -> Answered
    ensures same { IsSame C.is_same lists.old lists.new }
    ensures called { Called result (lists_of C.numbers lists.new) (begin m.entry.options start m.entry.code.now m.entry.starts.now counts (lists_of C.numbers lists.old)) }
{
    if let Err(refusal) = validity::begin(m.options, start, m.code.len(), m.starts) {
        return Answered {
            walk: new(start, counts),
            answer: refused(refusal),
        };
    }
    lists.zero();
    Answered {
        walk: new(start, no_counts()),
        answer: Answer::Going,
    }
}

// One instruction, or one piece of data skipped. The checks are made anew, since a host may have written to the lists or the walk.
pub fn step<C: CallList>(m: Module, w: Walk, lists: &mut Lists<C>) -> Answered
    ensures same { IsSame C.is_same lists.old lists.new }
    ensures called { Called result (lists_of C.numbers lists.new) (step m.entry.options m.entry.code.now m.entry.starts.now w (lists_of C.numbers lists.old)) }
{
    if !is_going(w.result) {
        return Answered {
            walk: w,
            answer: w.result,
        };
    }
    if let Err(refusal) = validity::step(m.options, m.code.len(), m.starts, w, lists) {
        return Answered {
            walk: w,
            answer: refused(refusal),
        };
    }
    let walk = turn::turn(m, w, lists);
    let answer = walk.result;
    Answered { walk, answer }
}

// The walk's result, once it has one.
#[tactic(auto, unfolding(crate::specs::Stepper::finish))]
pub fn finish(w: Walk) -> Answer
    ensures { result ≡ finish w }
{
    if is_going(w.result) {
        refused(Refusal::NotDone)
    } else {
        w.result
    }
}
