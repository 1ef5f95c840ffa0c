// Operands, by the manual's addressing modes (chapter A5).
ghost use Rattle.std.specs.Prelude.{◌≡◌, ◌<◌};
ghost use Rattle.modes.specs.Operands.{kind_of, shift_of, shift_imm_of, shift_amount_of};
ghost use Rattle.modes.specs.Operands.{op2_of, offset_of, addr_of, mode_of, extra_of, target_of};

use crate::immediate::immediate;
use crate::offset::{branch_offset, destination, load_offset};
use classes::fields::{self, bit};
use classes::{AddrLdrStr, LdmStmMode, LdrStrOffset, Op2, ShiftOp};

// A shift by a register, or by an amount other than 0.
#[tactic(auto, unfolding(crate::specs::Operands::shift_of))]
fn shift(word: u32) -> ShiftOp
    ensures { result ≡ shift_of (kind_of word) }
{
    match (bit(word, 6), bit(word, 5)) {
        (false, false) => ShiftOp::Lsl,
        (false, true) => ShiftOp::Lsr,
        (true, false) => ShiftOp::Asr,
        (true, true) => ShiftOp::Ror,
    }
}

// The shift of a register by an immediate amount, and that amount. An amount field of 0 stands for LSL #0, LSR #32, ASR #32 and RRX.
#[tactic(auto, unfolding(crate::specs::Operands::shift_of, crate::specs::Operands::shift_imm_of, crate::specs::Operands::shift_amount_of))]
fn shift_imm(word: u32) -> (ShiftOp, u8)
    ensures shift { result.0 ≡ shift_imm_of word }
    ensures amount { result.1 ≡ shift_amount_of word }
{
    let amount = ((word >> 7) & 31) as u8;
    match (shift(word), amount) {
        (ShiftOp::Lsr, 0) => (ShiftOp::Lsr, 32),
        (ShiftOp::Asr, 0) => (ShiftOp::Asr, 32),
        (ShiftOp::Ror, 0) => (ShiftOp::Rrx, 1),
        (shift_op, amount) => (shift_op, amount),
    }
}

// Addressing mode 1.
#[tactic(auto, unfolding(crate::specs::Operands::op2_of))]
pub fn op2(word: u32) -> Op2
    ensures { result ≡ op2_of word }
{
    let rm = fields::rm(word);
    if bit(word, 25) {
        Op2::Imm(immediate(word))
    } else if bit(word, 4) {
        let shift_op = shift(word);
        let rs = fields::rs(word);
        Op2::ShiftReg { rm, shift_op, rs }
    } else {
        let (shift_op, imm) = shift_imm(word);
        Op2::ShiftImm { rm, shift_op, imm }
    }
}

// Addressing mode 2: bit 25 tells a register offset, U its sign.
#[tactic(auto, unfolding(crate::specs::Operands::offset_of))]
fn offset(word: u32) -> LdrStrOffset
    ensures { result ≡ offset_of word }
{
    if bit(word, 25) {
        let (shift_op, imm) = shift_imm(word);
        LdrStrOffset::Reg {
            rm: fields::rm(word),
            shift_op,
            imm,
            subtract: !bit(word, 23),
        }
    } else {
        LdrStrOffset::Imm(load_offset(word))
    }
}

// Addressing mode 2: P tells whether the offset counts before the access.
#[tactic(auto, unfolding(crate::specs::Operands::addr_of))]
pub fn addr(word: u32) -> AddrLdrStr
    ensures { result ≡ addr_of word }
{
    let rn = fields::rn(word);
    let offset = offset(word);
    if bit(word, 24) {
        AddrLdrStr::Pre {
            rn,
            offset,
            writeback: bit(word, 21),
        }
    } else {
        AddrLdrStr::Post { rn, offset }
    }
}

// Addressing mode 4: P and U.
#[tactic(auto, unfolding(crate::specs::Operands::mode_of))]
pub fn mode(word: u32) -> LdmStmMode
    ensures { result ≡ mode_of word }
{
    match (bit(word, 24), bit(word, 23)) {
        (false, false) => LdmStmMode::Da,
        (false, true) => LdmStmMode::Ia,
        (true, false) => LdmStmMode::Db,
        (true, true) => LdmStmMode::Ib,
    }
}

// BLX with an immediate can go to a halfword, by its H bit.
#[tactic(auto, unfolding(crate::specs::Operands::extra_of))]
fn extra(word: u32) -> u32
    ensures { result ≡ extra_of word }
{
    if word >> 28 == 15 && bit(word, 24) {
        2
    } else {
        0
    }
}

// Where a branch at `address` goes.
#[tactic(auto, unfolding(crate::specs::Operands::target_of))]
pub fn target(word: u32, address: u32) -> u32
    ensures { result ≡ target_of word address }
{
    destination(address, branch_offset(word), extra(word))
}
