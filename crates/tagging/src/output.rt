// The tag program's work on streams.
use crate::{ROOM, tag_function};
use finder::text_length;
use lists::Lists;
use std::io::{self, Write};

// The tag of what an input asks for, written to a stream.
pub fn write_tag<W: Write>(
    output: &mut W,
    input: &[u8],
    lists: &mut Lists<&mut [u32]>,
) -> io::Result<()> {
    let mut out = [0u8; ROOM];
    let answer = tag_function(input, lists, &mut out[..]);
    let length = text_length(answer);
    output.write_all(&out[..length])
}
