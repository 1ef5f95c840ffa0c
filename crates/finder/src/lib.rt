// The listing program's work on slices: a request in, the listing of the function out.
#![tactic(auto)]

pub mod output;

ghost use Rattle.std.specs.Prelude.{◌≡◌, Ok, Err};
ghost use Rattle.listing.specs.Listing.{rows_of as shared_rows};
ghost use Rattle.words.specs.Answer.{no_room};
ghost use Rattle.finder.specs.Finder.{rows_of, IsSame, Finds, found_by, found, Listed};

use base::refusal::Refusal;
use context::Module;
use listing::SharedLists;
use lists::Lists;
use outcome::no_counts;
use request::Request;
use stepper::refused;
use walk::{Answer, Counts};
use words::NoRoom;

// The answer to a request; how many entries of each list go with it.
#[derive(Clone, Copy)]
pub struct Outcome {
    pub answer: Answer,
    pub counts: Counts,
}

// The whole walk of a request. It has no existing starts.
#[tactic(auto, unfolding(crate::specs::Finder::found_by))]
fn walk_whole(r: Request, code: &[u8], lists: &mut Lists<&mut [u32]>) -> Outcome
    ensures same { IsSame lists.old lists.new }
    ensures found { Finds result (rows_of lists.new) (found_by r code.now (rows_of lists.old)) }
{
    let module = Module {
        options: r.options,
        code,
        starts: &[],
    };
    let ran = whole::run(module, r.start, lists, no_counts());
    Outcome {
        answer: ran.answer,
        counts: ran.walk.counts,
    }
}

// What an input asks for. One that is no request changes no list.
#[tactic(auto, unfolding(crate::specs::Finder::found, crate::specs::Finder::found_in))]
fn find(input: &[u8], lists: &mut Lists<&mut [u32]>) -> Outcome
    ensures same { IsSame lists.old lists.new }
    ensures found { Finds result (rows_of lists.new) (found input.now (rows_of lists.old)) }
{
    match request::parse(input) {
        Some(r) => walk_whole(r, &input[26..], lists),
        None => Outcome {
            answer: refused(Refusal::BadRequest),
            counts: no_counts(),
        },
    }
}

// A walk is lent the lists to change them, a listing to read them.
fn shared<'a>(lists: &'a Lists<&mut [u32]>) -> SharedLists<'a>
    ensures { shared_rows result ≡ rows_of lists.now }
{
    SharedLists {
        labels: lists.labels,
        pools: lists.pools,
        jump_tables: lists.jump_tables,
        inline_tables: lists.inline_tables,
        calls: lists.calls,
    }
}

// The listing of what an input asks for, at the start of `out`. A buffer that is too short is left alone; the lists hold what was found all the same.
pub fn list_function(
    input: &[u8],
    lists: &mut Lists<&mut [u32]>,
    out: &mut [u8],
) -> Result<usize, NoRoom>
    ensures same { IsSame lists.old lists.new }
    ensures listed { Listed input.now (rows_of lists.old) (rows_of lists.new) out.old result out.new }
{
    let found = find(input, lists);
    listing::listing(out, found.answer, shared(lists), found.counts)
}

// Of an answer that is a text. A caller shows that its buffer had room.
pub fn text_length(answer: Result<usize, NoRoom>) -> usize
    requires { answer ≡ Err no_room → ⊥ }
    ensures { answer ≡ Ok result }
{
    answer.unwrap()
}
