// What the table program reads: a request for a module's table, or an input that it refuses.
#![tactic(auto)]

ghost use Rattle.std.specs.Prelude.{◌≡◌, ◌≤◌, ◌+◌, ◌*◌, length, ltb, map};
ghost use Rattle.rows.specs.Order.{ascending};
ghost use Rattle.module_request.specs.ModuleRequest.{is_request, head, start_of, options_of, Holds, Parsed};

use base::refusal::Refusal;
use walk::Options;

// The options of a module's walks, the starts as they are read, and the code.
#[derive(Clone, Copy)]
pub struct ModuleRequest<'a> {
    pub options: Options,
    pub starts: &'a [[u8; 4]],
    pub code: &'a [u8],
}

// A start's number.
pub fn start_of(bytes: &[u8; 4]) -> u32
    ensures { result ≡ start_of bytes.now }
{
    words::word_at(bytes, 0)
}

// A request has 22 bytes before its starts, at most 256 of those, and at most 16,384 bytes of code.
fn is_request(input: &[u8]) -> bool
    ensures { result ≡ is_request input.now }
{
    let all = input.len();
    if all < 22 {
        return false;
    }
    if 17430 < all {
        return false;
    }
    if words::word_at(input, 0) as usize != all - 4 {
        return false;
    }
    if input[4] != 1 {
        return false;
    }
    if 1 < input[17] {
        return false;
    }
    let starts = words::word_at(input, 18) as usize;
    if 256 < starts {
        return false;
    }
    match (all - 22).checked_sub(starts * 4) {
        Some(code) => code <= 16384,
        None => false,
    }
}

#[tactic(auto, unfolding(crate::specs::ModuleRequest::options_of))]
fn options(input: &[u8]) -> Options
    requires { 22 ≤ length input.now }
    ensures { result ≡ options_of input.now }
{
    Options {
        base: words::word_at(input, 5),
        module_start: words::word_at(input, 9),
        module_end: words::word_at(input, 13),
        known_end: None,
        check: input[17] == 1,
    }
}

fn is_ascending(starts: &[[u8; 4]]) -> bool
    ensures { result ≡ ascending (map start_of starts.now) }
{
    starts.is_sorted_by(|a, b| start_of(a) < start_of(b))
}

// The starts stand behind the first 22 bytes, and the code behind them.
fn fields(input: &[u8]) -> ModuleRequest<'_>
    requires { head input.now ≤ length input.now }
    ensures { Holds result input.now }
{
    let count = words::word_at(input, 18) as usize;
    let (words, _) = input[22..].as_chunks::<4>();
    ModuleRequest {
        options: options(input),
        starts: &words[..count],
        code: &input[22 + count * 4..],
    }
}

// A request, or 16; and 4 where its starts do not ascend strictly.
pub fn parse(input: &[u8]) -> Result<ModuleRequest<'_>, Refusal>
    ensures { Parsed input.now result }
{
    if !is_request(input) {
        return Err(Refusal::BadRequest);
    }
    let asked = fields(input);
    if !is_ascending(asked.starts) {
        return Err(Refusal::BadLists);
    }
    Ok(asked)
}
