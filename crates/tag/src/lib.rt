// The tag of a walk: its instruction bytes × 100 by the record's length, as a whole quotient and its remainder. The walk's state holds the bytes.
#![tactic(auto)]

ghost use Rattle.std.specs.Prelude.{◌≡◌, ◌*◌, ◌<◌, ◌^◌};
ghost use Rattle.invariants.specs.Bytes.{bytes_of};
ghost use Rattle.lists.specs.Lists.{lists_of, IsSame};
ghost use Rattle.whole.specs.Whole.{run};
ghost use Rattle.tag.specs.Tag.{tag_of, tag_by, Tags};
ghost use Rattle.tag.specs.declared.Tag.TheVariants.{Refused as No-Tag};

use base::refusal::Refusal;
use calls::CallList;
use context::Module;
use lists::Lists;
use stepper::Answered;
use walk::{Answer, Counts, Record};

#[derive(Clone, Copy)]
pub enum Tag {
    Percent {
        quotient: u64,
        remainder: u64,
    },
    Refused {
        refusal: Refusal,
        address: u32,
        register: u8,
    },
}

// What the whole walk answered, and its tag.
#[derive(Clone, Copy)]
pub struct Tagged {
    pub answered: Answered,
    pub tag: Tag,
}

// A tag refused by a number that carries no address.
fn no_tag(refusal: Refusal) -> Tag
    ensures { result ≡ No-Tag refusal 0 0 }
{
    Tag::Refused {
        refusal,
        address: 0,
        register: 0,
    }
}

// The tag of a record.
#[tactic(auto, using(std::proofs::lemmas::Bool::Decides::nat_tests), unfolding(crate::specs::Tag::tag_of))]
fn tag_of(r: Record, bytes: u64) -> Tag
    requires { bytes * 100 < 2 ^ 64 }
    ensures { result ≡ tag_of r bytes }
{
    if r.end <= r.start {
        return no_tag(Refusal::EmptyRecord);
    }
    let length = (r.end - r.start) as u64;
    let parts = bytes * 100;
    Tag::Percent {
        quotient: parts / length,
        remainder: parts % length,
    }
}

// The tag of an answer.
fn tag_by(answer: Answer, bytes: u64) -> Tag
    requires { bytes * 100 < 2 ^ 64 }
    ensures { result ≡ tag_by answer bytes }
{
    match answer {
        Answer::Going => no_tag(Refusal::NotDone),
        Answer::Accepted(record) => tag_of(record, bytes),
        Answer::Refused {
            refusal,
            address,
            register,
        } => Tag::Refused {
            refusal,
            address,
            register,
        },
    }
}

// The whole walk, and its tag.
pub fn tag_walk<C: CallList>(m: Module, start: u32, lists: &mut Lists<C>, counts: Counts) -> Tagged
    ensures same { IsSame C.is_same lists.old lists.new }
    ensures tags { Tags result (lists_of C.numbers lists.new) (run m.entry.options m.entry.code.now m.entry.starts.now start counts (lists_of C.numbers lists.old)) (bytes_of m.entry.options m.entry.code.now m.entry.starts.now start counts (lists_of C.numbers lists.old)) }
{
    let answered = whole::run(m, start, lists, counts);
    let bytes = answered.walk.progress.instruction_bytes as u64;
    let tag = tag_by(answered.answer, bytes);
    Tagged { answered, tag }
}
