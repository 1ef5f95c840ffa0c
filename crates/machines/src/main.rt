// Reads records of eight numbers, four bytes each, big-endian: a machine, its state (a tag and three numbers), Thumb or not, an address and
// the word there. Hands the instruction to the machine and writes a line of seven numbers: the machine, its next state, and what it tells
// its caller. A refused sum has the tag ffffffff.
#![tactic(auto)]

use analysis::function_branch::FunctionBranchState;
use analysis::illegal_code::IllegalCodeState;
use analysis::inline_table::{InlineTable, InlineTableState};
use analysis::jump_table::JumpTableStateArm;
use arm::Ins;
use base::refusal::Refusal;
use std::io::{self, Stdin, Stdout, Write};

#[derive(Clone, Copy)]
struct Record {
    machine: u32,
    tag: u32,
    a: u32,
    b: u32,
    c: u32,
    thumb: bool,
    address: u32,
    word: u32,
}

// The next state, as a tag and three numbers, and what the machine tells its caller.
#[derive(Clone, Copy, Default)]
struct Row {
    tag: u32,
    a: u32,
    b: u32,
    c: u32,
    x: u32,
    y: u32,
}

const REFUSED: Row = Row {
    tag: 0xFFFF_FFFF,
    a: 0,
    b: 0,
    c: 0,
    x: 0,
    y: 0,
};

fn small(number: u32) -> u8 {
    (number % 256) as u8
}

impl Record {
    fn read(bytes: &[u8; 32]) -> Record {
        Record {
            machine: words::word_at(bytes, 0),
            tag: words::word_at(bytes, 4),
            a: words::word_at(bytes, 8),
            b: words::word_at(bytes, 12),
            c: words::word_at(bytes, 16),
            thumb: words::word_at(bytes, 20) == 1,
            address: words::word_at(bytes, 24),
            word: words::word_at(bytes, 28),
        }
    }

    // A reason by its number: those that the machine gives have names, and any other is taken as it is.
    fn reason(self) -> Refusal {
        match small(self.a) {
            5 => Refusal::IllegalOpcode,
            6 => Refusal::ShiftedBase,
            7 => Refusal::OffsetByItself,
            8 => Refusal::PcIntoPc,
            other => Refusal::Other(other),
        }
    }

    // A tag past the last is the last state, here and below, so a match is plainer than a conversion that may fail.
    fn illegal_code(self) -> IllegalCodeState {
        match self.tag {
            0 => IllegalCodeState::Start,
            1 => IllegalCodeState::ShiftedRegisterValue { reg: small(self.a) },
            _ => IllegalCodeState::Illegal {
                reason: self.reason(),
            },
        }
    }

    fn function_branch(self) -> FunctionBranchState {
        match self.tag {
            0 => FunctionBranchState::Start,
            1 => FunctionBranchState::Eors,
            2 => FunctionBranchState::MovgePcLr,
            3 => FunctionBranchState::MovFromSp,
            4 => FunctionBranchState::LdrIpPc,
            5 => FunctionBranchState::AddR0Ip,
            _ => FunctionBranchState::FunctionBranch,
        }
    }

    fn inline_table(self) -> InlineTableState {
        match self.tag {
            0 => InlineTableState::Start,
            1 => InlineTableState::SubPc {
                table_base: small(self.a),
                table_address: self.b,
                size: self.c,
            },
            _ => InlineTableState::ValidTable(InlineTable {
                address: self.a,
                size: self.b,
            }),
        }
    }

    fn jump_table(self) -> JumpTableStateArm {
        let index = small(self.a);
        let limit = self.b;
        match self.tag {
            0 => JumpTableStateArm::CmpReg,
            1 => JumpTableStateArm::JumpOrBranchSigned { index, limit },
            2 => JumpTableStateArm::SignedBaseline { index, limit },
            3 => JumpTableStateArm::JumpSigned { index, limit },
            4 => JumpTableStateArm::JumpAfterReturn { index, limit },
            _ => JumpTableStateArm::ValidJumpTable {
                table_address: self.a,
                limit,
            },
        }
    }
}

impl Row {
    fn state(tag: u32, a: u32, b: u32) -> Row {
        Row {
            tag,
            a,
            b,
            ..Row::default()
        }
    }
}

impl From<IllegalCodeState> for Row {
    fn from(state: IllegalCodeState) -> Row {
        match state {
            IllegalCodeState::Start => Row::default(),
            IllegalCodeState::ShiftedRegisterValue { reg } => Row::state(1, u32::from(reg), 0),
            IllegalCodeState::Illegal { reason } => Row::state(2, u32::from(u8::from(reason)), 0),
        }
    }
}

impl From<FunctionBranchState> for Row {
    fn from(state: FunctionBranchState) -> Row {
        Row {
            x: u32::from(state.is_function_branch()),
            ..Row::state(state as u32, 0, 0)
        }
    }
}

impl From<InlineTableState> for Row {
    fn from(state: InlineTableState) -> Row {
        match state {
            InlineTableState::Start => Row::default(),
            InlineTableState::SubPc {
                table_base,
                table_address,
                size,
            } => Row {
                c: size,
                ..Row::state(1, u32::from(table_base), table_address)
            },
            InlineTableState::ValidTable(table) => Row::state(2, table.address, table.size),
        }
    }
}

impl From<JumpTableStateArm> for Row {
    fn from(state: JumpTableStateArm) -> Row {
        match state {
            JumpTableStateArm::CmpReg => Row::default(),
            JumpTableStateArm::JumpOrBranchSigned { index, limit } => {
                Row::state(1, u32::from(index), limit)
            }
            JumpTableStateArm::SignedBaseline { index, limit } => {
                Row::state(2, u32::from(index), limit)
            }
            JumpTableStateArm::JumpSigned { index, limit } => {
                Row::state(3, u32::from(index), limit)
            }
            JumpTableStateArm::JumpAfterReturn { index, limit } => {
                Row::state(4, u32::from(index), limit)
            }
            JumpTableStateArm::ValidJumpTable {
                table_address,
                limit,
            } => Row::state(5, table_address, limit),
        }
    }
}

fn inline_table(record: Record, ins: Ins) -> Result<Row, Refusal> {
    let next = record
        .inline_table()
        .handle(record.thumb, record.address, ins)?;
    let row = Row::from(next);
    Ok(match next.get_table() {
        Some(table) => Row {
            x: table.address,
            y: table.size,
            ..row
        },
        None => row,
    })
}

fn jump_table(record: Record, ins: Ins) -> Result<Row, Refusal> {
    let (next, found) = record.jump_table().handle(record.address, ins)?;
    let end = next.table_end_address()?;
    Ok(Row {
        x: found.map_or(0, |table| table.address),
        y: end.unwrap_or(0),
        ..Row::from(next)
    })
}

fn next_row(record: Record) -> Result<Row, Refusal> {
    let ins = arm::decode(record.word, record.address);
    match record.machine {
        1 => Ok(Row::from(record.illegal_code().handle(ins))),
        2 => Ok(Row::from(record.function_branch().handle(ins))),
        3 => inline_table(record, ins),
        _ => jump_table(record, ins),
    }
}

// In one write: the stream has no buffer.
fn write_line<W: Write>(output: &mut W, record: Record) -> io::Result<()> {
    let Row { tag, a, b, c, x, y } = next_row(record).unwrap_or(REFUSED);
    let mut line = *b"00000000 00000000 00000000 00000000 00000000 00000000 00000000\n";
    text::put_hex(&mut line, 0, 8, record.machine);
    text::put_hex(&mut line, 9, 8, tag);
    text::put_hex(&mut line, 18, 8, a);
    text::put_hex(&mut line, 27, 8, b);
    text::put_hex(&mut line, 36, 8, c);
    text::put_hex(&mut line, 45, 8, x);
    text::put_hex(&mut line, 54, 8, y);
    output.write_all(&line)
}

// A line for each record; what is left over at the end is none.
fn write_lines<W: Write>(output: &mut W, input: &[u8]) -> io::Result<()> {
    let (records, _) = input.as_chunks::<32>();
    for record in records {
        write_line(output, Record::read(record))?;
    }
    Ok(())
}

fn run(from: &mut Stdin, output: &mut Stdout, input: &mut [u8]) -> io::Result<()> {
    let n = streams::read_full(from, input)?;
    write_lines(output, &input[..n])
}

// The buffer is lent by a function that does nothing else, since a proof about so long an array is slow.
fn main(rt: HostRuntime) -> io::Result<()> {
    let mut input = [0u8; 262144];
    run(&mut rt.stdin(), &mut rt.stdout(), &mut input)
}
