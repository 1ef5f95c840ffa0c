// The tag program's work on slices: a request of the listing program in, the tag of the function out.
#![tactic(auto)]

pub mod output;

ghost use Rattle.finder.specs.Finder.{rows_of, IsSame, found_by, found};
ghost use Rattle.text.specs.Writers.{HasRoom, Wrote};
ghost use Rattle.tagging.specs.Tagging.{tag_found_by, tag_found, percent_line, tag_text, tag_room, FindsTag, ListsTag};

use base::refusal::Refusal;
use context::Module;
use listing::put_refusal;
use lists::Lists;
use outcome::no_counts;
use request::Request;
use tag::{Tag, tag_walk};
use text::Writer;
use words::NoRoom;

// What `tag_function` asks for, whatever it prints: two numbers of 20 digits, and six bytes more.
pub const ROOM: usize = 46;

// The tag of a request's function. It has no existing starts.
#[tactic(auto, unfolding(finder::specs::Finder::found_by, crate::specs::Tagging::tag_found_by))]
fn walk_tag(r: Request, code: &[u8], lists: &mut Lists<&mut [u32]>) -> Tag
    ensures same { IsSame lists.old lists.new }
    ensures tag { FindsTag result (rows_of lists.new) (tag_found_by r code.now (rows_of lists.old)) (found_by r code.now (rows_of lists.old)).lists }
{
    let module = Module {
        options: r.options,
        code,
        starts: &[],
    };
    tag_walk(module, r.start, lists, no_counts()).tag
}

// What an input asks for. One that is no request changes no list.
#[tactic(auto, unfolding(finder::specs::Finder::found, finder::specs::Finder::found_in, crate::specs::Tagging::tag_found, crate::specs::Tagging::tag_found_in))]
fn find_tag(input: &[u8], lists: &mut Lists<&mut [u32]>) -> Tag
    ensures same { IsSame lists.old lists.new }
    ensures tag { FindsTag result (rows_of lists.new) (tag_found input.now (rows_of lists.old)) (found input.now (rows_of lists.old)).lists }
{
    match request::parse(input) {
        Some(r) => walk_tag(r, &input[26..], lists),
        None => Tag::Refused {
            refusal: Refusal::BadRequest,
            address: 0,
            register: 0,
        },
    }
}

fn put_percent(writer: &mut Writer<'_>, quotient: u64, remainder: u64)
    requires { HasRoom writer.old tag_room }
    ensures { Wrote writer.old writer.new (percent_line quotient remainder) }
{
    writer.put_bytes(b"tag ");
    writer.put_decimal(quotient);
    writer.put_byte(b' ');
    writer.put_decimal(remainder);
    writer.put_byte(b'\n');
}

fn put_tag(writer: &mut Writer<'_>, tag: Tag)
    requires { HasRoom writer.old tag_room }
    ensures { Wrote writer.old writer.new (tag_text tag) }
{
    match tag {
        Tag::Percent {
            quotient,
            remainder,
        } => put_percent(writer, quotient, remainder),
        Tag::Refused {
            refusal,
            address,
            ..
        } => put_refusal(writer, refusal, address),
    }
}

// The tag of what an input asks for, at the start of `out`. A buffer that is too short is left alone; the lists hold what was found all the same.
pub fn tag_function(
    input: &[u8],
    lists: &mut Lists<&mut [u32]>,
    out: &mut [u8],
) -> Result<usize, NoRoom>
    ensures same { IsSame lists.old lists.new }
    ensures listed { ListsTag input.now (rows_of lists.old) (rows_of lists.new) out.old result out.new }
{
    let tag = find_tag(input, lists);
    if out.len() < ROOM {
        return Err(NoRoom);
    }
    let mut writer = Writer::new(out);
    put_tag(&mut writer, tag);
    Ok(writer.at)
}
