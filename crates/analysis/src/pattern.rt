// What the machines' patterns ask of an instruction.
ghost use Rattle.std.specs.Prelude.{◌≡◌};
ghost use Rattle.analysis.specs.Pattern.{is_when, is_data, is_register, is_lsl, is_scaled, is_pre, by_itself, by_lsr};

use arm::Ins;
use classes::{AddrLdrStr, Class, Cond, LdrStrOffset, Op2, ShiftOp};

// Registers stay numbers, as the fields of an instruction are.
pub const IP: u8 = 12;

pub const SP: u8 = 13;

pub const LR: u8 = 14;

pub const PC: u8 = 15;

#[tactic(auto, using(classes::proofs::Numbers::same_class))]
pub fn is_when(ins: Ins, class: Class, cond: Cond) -> bool
    ensures { result ≡ is_when ins class cond }
{
    ins.class == class && ins.cond == cond
}

pub fn is_data(ins: Ins, class: Class, cond: Cond, s: bool) -> bool
    ensures { result ≡ is_data ins class cond s }
{
    is_when(ins, class, cond) && ins.s == s
}

// A register that is shifted by 0, that is, not at all.
pub fn is_register(op2: Op2, register: u8) -> bool
    ensures { result ≡ is_register op2 register }
{
    matches!(op2, Op2::ShiftImm { rm, imm: 0, .. } if rm == register)
}

pub fn is_lsl(op: ShiftOp) -> bool
    ensures { result ≡ is_lsl op }
{
    op == ShiftOp::Lsl
}

// A register times 4: the index of a jump table.
pub fn is_scaled(op2: Op2, register: u8) -> bool
    ensures { result ≡ is_scaled op2 register }
{
    matches!(op2, Op2::ShiftImm { rm, shift_op, imm: 2 } if rm == register && is_lsl(shift_op))
}

pub fn is_pre(addr: AddrLdrStr, register: u8) -> bool
    ensures { result ≡ is_pre addr register }
{
    matches!(addr, AddrLdrStr::Pre { rn, .. } if rn == register)
}

// An address whose offset register is its base.
pub fn by_itself(addr: AddrLdrStr) -> bool
    ensures { result ≡ by_itself addr }
{
    let (AddrLdrStr::Pre { rn, offset, .. } | AddrLdrStr::Post { rn, offset }) = addr;
    matches!(offset, LdrStrOffset::Reg { rm, .. } if rm == rn)
}

// An offset that is a register shifted by LSR.
pub fn by_lsr(addr: AddrLdrStr) -> bool
    ensures { result ≡ by_lsr addr }
{
    let (AddrLdrStr::Pre { offset, .. } | AddrLdrStr::Post { offset, .. }) = addr;
    matches!(
        offset,
        LdrStrOffset::Reg {
            shift_op: ShiftOp::Lsr,
            ..
        }
    )
}
