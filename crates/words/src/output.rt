// The texts' work on streams.
ghost use Rattle.std.specs.Prelude.{IfOk};
ghost use Rattle.words.specs.Answer.{Answered, Translated, room_for, text_as};

use crate::{NoRoom, Text, class_text, decode_text};
use std::io::{self, Read, Stdin, Stdout, Write};

// The text of one kind or the other, by the two functions that promise it.
#[tactic(auto, unfolding(crate::specs::Answer::text_of, crate::specs::Answer::class_text_of))]
fn text_into(input: &[u8], out: &mut [u8], text: Text) -> Result<usize, NoRoom>
    ensures { Answered (text_as text input.now) (room_for input.now) out.old result out.new }
{
    match text {
        Text::Decode => decode_text(input, out),
        Text::Class => class_text(input, out),
    }
}

// The text of the words that a stream has, written to another.
fn translate<R: Read, W: Write>(
    from: &mut R,
    output: &mut W,
    input: &mut [u8],
    out: &mut [u8],
    text: Text,
) -> io::Result<()>
    ensures { IfOk result (λ done. Translated text input.new out.old out.new) }
{
    let n = streams::read_full(from, input)?;
    if let Ok(length) = text_into(&input[..n], out, text) {
        output.write_all(&out[..length])?;
    }
    Ok(())
}

// A program's whole work, with buffers for every input: one byte more than is taken, so that a longer input is seen as too long.
pub fn run(
    from: &mut Stdin,
    output: &mut Stdout,
    input: &mut [u8; 65537],
    out: &mut [u8; 524288],
    text: Text,
) -> io::Result<()>
    ensures { IfOk result (λ done. Translated text input.new out.old out.new) }
{
    translate(from, output, &mut input[..], &mut out[..], text)
}
