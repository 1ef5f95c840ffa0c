// Reads instruction words from standard input, and writes a line for each that says what it is.
#![tactic(auto)]

use std::io;
use words::Text;

// The buffers are lent by a function that does nothing else, since a proof about so long an array is slow.
fn main(rt: HostRuntime) -> io::Result<()> {
    let mut input = [0u8; 65537];
    let mut out = [0u8; 524288];
    words::output::run(
        &mut rt.stdin(),
        &mut rt.stdout(),
        &mut input,
        &mut out,
        Text::Decode,
    )
}
