// Prints how many of the 2^32 words each class has: its name, unconditional ones, conditional ones.
#![tactic(auto)]

use std::io::{self, Write};

fn main(rt: HostRuntime) -> io::Result<()> {
    let mut out = [0u8; 2048];
    if let Ok(length) = census_text::census_text(&mut out) {
        rt.stdout().write_all(&out[..length])?;
    }
    Ok(())
}
