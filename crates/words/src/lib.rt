// The text of a list of instruction words: one line for each word, in their order.
//
// `decode_text` says what each word is, with its condition, the registers that it reads and writes
// and whether it sets the condition flags; `class_text` says only which class it has.
#![tactic(auto)]

pub mod output;

ghost use Rattle.std.specs.Prelude.{◌≡◌, ◌+◌, ◌*◌, ◌/◌, ◌≤◌, ◌<◌, length};
ghost use Rattle.text.specs.Hex.{hex};
ghost use Rattle.text.specs.Writers.{HasRoom, Wrote};
ghost use Rattle.words.specs.Names.{name_of, cond_of};
ghost use Rattle.words.specs.Lines.{field, flag_of, head_of, class_line_of, line_of, line_as, word_at, lines_of};
ghost use Rattle.words.specs.Answer.{Answered, refusal, text_as, text_of, class_text_of, room_for};

use classes::Class;
use text::Writer;

// The buffer is too short for the text.
#[derive(Clone, Copy, Debug, PartialEq, Eq)]
pub struct NoRoom;

// Which of the two texts. With a function in its place, `output::run` would require that it may be called.
#[derive(Clone, Copy)]
pub enum Text {
    Decode,
    Class,
}

// The name of each class, in the order of their numbers.
const NAMES: [&str; 74] = [
    "ADC", "ADD", "AND", "B", "BIC", "BKPT", "BL", "BLX1", "BLX2", "BX", "CDP", "CLZ", "CMN",
    "CMP", "EOR", "LDC", "LDM", "LDR", "LDRB", "LDRBT", "LDRD", "LDRH", "LDRSB", "LDRSH", "LDRT",
    "MCR", "MCRR", "MLA", "MOV", "MRC", "MRRC", "MRS", "MSR", "MUL", "MVN", "ORR", "PLD", "QADD",
    "QDADD", "QDSUB", "QSUB", "RSB", "RSC", "SBC", "SMLAL", "SMLALXY", "SMLAWY", "SMLAXY", "SMULL",
    "SMULWY", "SMULXY", "STC", "STM", "STR", "STRB", "STRBT", "STRD", "STRH", "STRT", "SUB", "SWI",
    "SWP", "SWPB", "TEQ", "TST", "UMLAL", "UMULL", "PUSH", "POP", "LSL", "LSR", "ASR", "ROR",
    "ILLEGAL",
];

// Two letters for each condition: `Hs` is cs here, and `Lo` cc.
const CONDITIONS: [[u8; 2]; 16] = [
    *b"eq", *b"ne", *b"cs", *b"cc", *b"mi", *b"pl", *b"vs", *b"vc", *b"hi", *b"ls", *b"ge", *b"lt",
    *b"gt", *b"le", *b"al", *b"nv",
];

// The word whose bytes start at `at`, the most significant first.
pub fn word_at(input: &[u8], at: usize) -> u32
    requires { at + 4 ≤ length input.now }
    ensures { result ≡ word_at input.now at }
{
    u32::from_be_bytes([input[at], input[at + 1], input[at + 2], input[at + 3]])
}

// A space, and then a piece of a line.
fn put_field(writer: &mut Writer<'_>, piece: &[u8])
    requires { HasRoom writer.old (1 + length piece.now) }
    ensures { Wrote writer.old writer.new (field piece.now) }
{
    writer.put_byte(b' ');
    writer.put_bytes(piece);
}

// The name of a class.
fn put_name(writer: &mut Writer<'_>, class: Class)
    requires { HasRoom writer.old 8 }
    ensures { Wrote writer.old writer.new (field (name_of class)) }
{
    put_field(writer, NAMES[u8::from(class) as usize].as_bytes());
}

// A set of registers.
fn put_set(writer: &mut Writer<'_>, set: u16)
    requires { HasRoom writer.old 5 }
    ensures { Wrote writer.old writer.new (field (hex 4 set)) }
{
    writer.put_byte(b' ');
    writer.put_hex(4, set as u32);
}

// How every line starts: the word, and the name of its class.
fn put_head(writer: &mut Writer<'_>, word: u32, class: Class)
    requires { HasRoom writer.old 16 }
    ensures { Wrote writer.old writer.new (head_of word class) }
{
    writer.put_hex(8, word);
    put_name(writer, class);
}

// A line of the class text.
fn put_class_line(writer: &mut Writer<'_>, word: u32)
    requires { HasRoom writer.old 17 }
    ensures { Wrote writer.old writer.new (class_line_of word) }
{
    put_head(writer, word, arm::class_of(word));
    writer.put_byte(b'\n');
}

// The letter that says whether the condition flags are set.
fn flag_letter(flags: bool) -> u8
    ensures { result ≡ flag_of flags }
{
    if flags { b's' } else { b'-' }
}

// A line of the decode text. Nothing that it prints depends on the word's address.
fn put_line(writer: &mut Writer<'_>, word: u32)
    requires { HasRoom writer.old 32 }
    ensures { Wrote writer.old writer.new (line_of word) }
{
    let ins = arm::decode(word, 0);
    put_head(writer, word, ins.class);
    put_field(writer, &CONDITIONS[u8::from(ins.cond) as usize]);
    put_set(writer, ins.uses);
    put_set(writer, ins.defs);
    put_field(writer, &[flag_letter(ins.updates_condition_flags), b'\n']);
}

// A line of one text or the other.
fn put_line_as(writer: &mut Writer<'_>, word: u32, text: Text)
    requires { HasRoom writer.old 32 }
    ensures { Wrote writer.old writer.new (line_as text word) }
{
    match text {
        Text::Decode => put_line(writer, word),
        Text::Class => put_class_line(writer, word),
    }
}

// The lines of all words.
fn put_lines(writer: &mut Writer<'_>, input: &[u8], text: Text)
    requires { HasRoom writer.old (32 * (length input.now / 4)) }
    ensures { Wrote writer.old writer.new (lines_of (line_as text) input.now (length input.now / 4)) }
{
    for i in 0..input.len() / 4 {
        put_line_as(writer, word_at(input, 4 * i), text);
    }
}

// The line that stands in place of the text.
fn refuse(out: &mut [u8]) -> Result<usize, NoRoom>
    ensures { Answered refusal 20 out.old result out.new }
{
    if out.len() < 20 {
        return Err(NoRoom);
    }
    let mut writer = Writer::new(out);
    writer.put_bytes(b"refused 16 00000000\n");
    Ok(writer.at)
}

// The whole text, or the line that says that the input is refused.
fn put_text(input: &[u8], out: &mut [u8], text: Text) -> Result<usize, NoRoom>
    ensures { Answered (text_as text input.now) (room_for input.now) out.old result out.new }
{
    if input.len() % 4 != 0 || input.len() > 65536 {
        return refuse(out);
    }
    if out.len() < input.len() / 4 * 32 {
        return Err(NoRoom);
    }
    let mut writer = Writer::new(out);
    put_lines(&mut writer, input, text);
    Ok(writer.at)
}

// The decode text of `input`, at the start of `out`.
#[tactic(auto, unfolding(crate::specs::Answer::text_of))]
pub fn decode_text(input: &[u8], out: &mut [u8]) -> Result<usize, NoRoom>
    ensures { Answered (text_of input.now) (room_for input.now) out.old result out.new }
{
    put_text(input, out, Text::Decode)
}

// The class text of `input`, at the start of `out`.
#[tactic(auto, unfolding(crate::specs::Answer::class_text_of))]
pub fn class_text(input: &[u8], out: &mut [u8]) -> Result<usize, NoRoom>
    ensures { Answered (class_text_of input.now) (room_for input.now) out.old result out.new }
{
    put_text(input, out, Text::Class)
}
