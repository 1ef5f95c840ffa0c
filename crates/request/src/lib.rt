// What the listing program reads: a request, or an input that it refuses.
#![tactic(auto)]

ghost use Rattle.std.specs.Prelude.{◌≡◌, ◌≤◌, length};
ghost use Rattle.request.specs.Request.{is_request, known_end, request_of, parsed};

use walk::Options;

#[derive(Clone, Copy)]
pub struct Request {
    pub options: Options,
    pub start: u32,
}

// A request has 26 bytes before its code, and its code has at most 16,384. One chain of `&&` was tried, and its proof did not close.
fn is_request(input: &[u8]) -> bool
    ensures { result ≡ is_request input.now }
{
    let all = input.len();
    if all < 26 {
        return false;
    }
    if 16410 < all {
        return false;
    }
    if words::word_at(input, 0) as usize != all - 4 {
        return false;
    }
    if input[4] != 1 {
        return false;
    }
    input[25] <= 1
}

#[tactic(auto, unfolding(crate::specs::Request::known_end))]
fn known_end(end: u32) -> Option<u32>
    ensures { result ≡ known_end end }
{
    (end != 0).then_some(end)
}

#[tactic(auto, unfolding(crate::specs::Request::request_of))]
fn fields(input: &[u8]) -> Request
    requires { 26 ≤ length input.now }
    ensures { result ≡ request_of input.now }
{
    Request {
        options: Options {
            base: words::word_at(input, 5),
            module_start: words::word_at(input, 9),
            module_end: words::word_at(input, 13),
            known_end: known_end(words::word_at(input, 21)),
            check: input[25] == 1,
        },
        start: words::word_at(input, 17),
    }
}

// The code is what stands from byte 26 on.
pub fn parse(input: &[u8]) -> Option<Request>
    ensures { result ≡ parsed input.now }
{
    if is_request(input) {
        Some(fields(input))
    } else {
        None
    }
}
