// The listing program's work on streams.
ghost use Rattle.std.specs.Prelude.{◌+◌, ◌*◌, ◌≤◌, length};
ghost use Rattle.finder.specs.Finder.{rows_of, entries_in};

use crate::{list_function, text_length};
use lists::Lists;
use std::io::{self, Write};

// The listing of what an input asks for, written to a stream. `out` has room for a first line of 48 bytes, and 40 for each entry.
pub fn write_listing<W: Write>(
    output: &mut W,
    input: &[u8],
    lists: &mut Lists<&mut [u32]>,
    out: &mut [u8],
) -> io::Result<()>
    requires { 48 + 40 * entries_in (rows_of lists.old) ≤ length out.old }
{
    let answer = list_function(input, lists, out);
    let length = text_length(answer);
    output.write_all(&out[..length])
}
