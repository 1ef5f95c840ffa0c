// The whole walk for programs in other languages, also with its tag: a slice is a pointer and a length, an answer is thirteen numbers, and a tag is
// two. A list's rows stand one after another, so that a host may lend an array of structs of 32-bit numbers.
#![tactic(auto)]

pub mod module_table;

ghost use Rattle.std.specs.Prelude.{◌≡◌};
ghost use Rattle.context.specs.Lists.{lists};
ghost use Rattle.context.specs.Turn.{no_maps, counts_of};
ghost use Rattle.invariants.specs.Bytes.{bytes_of};
ghost use Rattle.whole.specs.Whole.{run};
ghost use Rattle.cugbejin_c.specs.Numbers.{known_from, options_from, no_record, record_of, numbers_of, tag_number, tag_numbers, AnsweredIn, TaggedIn};

use context::Module;
use lists::Lists;
use outcome::no_counts;
use tag::Tag;
use walk::{Answer, Counts, Options, Record};

// C's own form of an end that may be missing.
fn known_from(known: u32, end: u32) -> Option<u32>
    ensures { result ≡ known_from known end }
{
    (known != 0).then_some(end)
}

fn options_from(base: u32, start: u32, end: u32, known: u32, known_end: u32, check: u32) -> Options
    ensures { result ≡ options_from base start end known known_end check }
{
    let known_end = known_from(known, known_end);
    Options {
        base,
        module_start: start,
        module_end: end,
        known_end,
        check: check != 0,
    }
}

fn no_record() -> Record
    ensures { result ≡ no_record }
{
    Record::default()
}

fn record_of(answer: Answer) -> Record
    ensures { result ≡ record_of answer }
{
    match answer {
        Answer::Accepted(found) => found,
        _ => no_record(),
    }
}

fn numbers_of(answer: Answer, counts: Counts) -> [u64; 13]
    ensures { result ≡ numbers_of answer counts }
{
    let found = record_of(answer);
    [
        answers::number(answer) as u64,
        answers::address(answer) as u64,
        answers::register(answer) as u64,
        found.start as u64,
        found.end as u64,
        found.first_instruction as u64,
        found.last_instruction_end as u64,
        found.saved_registers as u64,
        counts.labels as u64,
        counts.pools as u64,
        counts.jump_tables as u64,
        counts.inline_tables as u64,
        counts.calls as u64,
    ]
}

// The number of a tag that is refused, 0 for none.
fn tag_number(tag: Tag) -> u8
    ensures { result ≡ tag_number tag }
{
    match tag {
        Tag::Percent { .. } => 0,
        Tag::Refused { refusal, .. } => u8::from(refusal),
    }
}

fn tag_numbers(tag: Tag) -> [u64; 2]
    ensures { result ≡ tag_numbers tag }
{
    match tag {
        Tag::Percent {
            quotient,
            remainder,
        } => [quotient, remainder],
        Tag::Refused { .. } => [0, 0],
    }
}

// 0, or the number of a refusal. `answer` then holds that number, the refusal's address and register, the record's start, end, first instruction and
// last instruction end and how many registers its first instruction saves, and the counts of labels, pools, jump tables, inline tables and calls.
// No known end where `known` is 0; no check of registers where `check` is 0. By `cugbejin_tag`, so that the walk stands in the library once
// (docs/SPEED.md).
#[unsafe(no_mangle)]
pub extern "C" fn cugbejin_run(
    base: u32,
    module_start: u32,
    module_end: u32,
    start: u32,
    known: u32,
    known_end: u32,
    check: u32,
    code: &[u8],
    starts: &[u32],
    labels: &mut [u32],
    pools: &mut [u32],
    jump_tables: &mut [u32],
    inline_tables: &mut [u32],
    calls: &mut [u32],
    answer: &mut [u64; 13],
) -> u32
    ensures { AnsweredIn result answer.new (lists labels.new pools.new jump_tables.new inline_tables.new calls.new) (run (options_from base module_start module_end known known_end check) code.now starts.now start (counts_of no_maps) (lists labels.old pools.old jump_tables.old inline_tables.old calls.old)) }
{
    let mut percent = [0; 2];
    cugbejin_tag(
        base,
        module_start,
        module_end,
        start,
        known,
        known_end,
        check,
        code,
        starts,
        labels,
        pools,
        jump_tables,
        inline_tables,
        calls,
        answer,
        &mut percent,
    );
    answer[0] as u32
}

// The same walk with its tag; `answer` then holds what `cugbejin_run` leaves there. 0 where there is a tag, and `percent` holds its quotient and
// remainder. Else zeros, and the number of the walk's refusal, or 17 where it found a record that has no tag.
#[unsafe(no_mangle)]
pub extern "C" fn cugbejin_tag(
    base: u32,
    module_start: u32,
    module_end: u32,
    start: u32,
    known: u32,
    known_end: u32,
    check: u32,
    code: &[u8],
    starts: &[u32],
    labels: &mut [u32],
    pools: &mut [u32],
    jump_tables: &mut [u32],
    inline_tables: &mut [u32],
    calls: &mut [u32],
    answer: &mut [u64; 13],
    percent: &mut [u64; 2],
) -> u32
    ensures { TaggedIn result answer.new percent.new (lists labels.new pools.new jump_tables.new inline_tables.new calls.new) (run (options_from base module_start module_end known known_end check) code.now starts.now start (counts_of no_maps) (lists labels.old pools.old jump_tables.old inline_tables.old calls.old)) (bytes_of (options_from base module_start module_end known known_end check) code.now starts.now start (counts_of no_maps) (lists labels.old pools.old jump_tables.old inline_tables.old calls.old)) }
{
    let module = Module {
        options: options_from(base, module_start, module_end, known, known_end, check),
        code,
        starts,
    };
    let mut lists = Lists {
        labels,
        pools,
        jump_tables,
        inline_tables,
        calls,
    };
    let tagged = tag::tag_walk(module, start, &mut lists, no_counts());
    let ran = tagged.answered;
    *answer = numbers_of(ran.answer, ran.walk.counts);
    *percent = tag_numbers(tagged.tag);
    tag_number(tagged.tag) as u32
}
