// The naming rules of document 01, and of document 02 for pushes and pops of one register: the only place where a word gets another name than
// the manual's.
ghost use Rattle.std.specs.Prelude.{◌≡◌};
ghost use Rattle.arm.specs.Naming.{shift_name, mov_name, name_of, is_of_one, regs_of};

use classes::{Class, Op2, ShiftOp};
use modes::operands;
use regsets::sets;

#[tactic(auto, using(classes::proofs::Numbers::other_class), unfolding(crate::specs::Naming::name_of, crate::specs::Naming::stm_name, crate::specs::Naming::ldm_name, crate::specs::Naming::str_name, crate::specs::Naming::ldr_name, classes::specs::Class::class_no))]
pub fn name(class: Class, word: u32) -> Class
    ensures { result ≡ name_of class word }
{
    let block = (word >> 16) & 0x1FF;
    let single = (word >> 16) & 0xFFF;
    let offset = word & 0xFFF;
    match class {
        Class::Mov => mov_name(operands::op2(word)),
        // STMDB with SP written back and S clear: P, U, S, W, L and Rn in bits 24 to 16.
        Class::Stm if block == 0b1_0010_1101 => Class::Push,
        // LDMIA with SP written back and S clear.
        Class::Ldm if block == 0b0_1011_1101 => Class::Pop,
        // STR Rd, [SP, #-4]!: bits 27 to 16, with an immediate offset, P = 1, U = 0, W = 1 and Rn = SP, and the offset in bits 11 to 0.
        Class::Str if single == 0b0101_0010_1101 && offset == 4 => Class::Push,
        // LDR Rd, [SP], #4: P = 0, U = 1, W = 0. With W = 1 it is LDRT.
        Class::Ldr if single == 0b0100_1001_1101 && offset == 4 => Class::Pop,
        _ => class,
    }
}

// The name of a move that shifts. No `impl From<ShiftOp> for Class`: a shift is no class, as `Rrx` shows, and the rules for names stand here.
#[tactic(auto, unfolding(crate::specs::Naming::shift_name))]
fn shift_name(op: ShiftOp) -> Class
    ensures { result ≡ shift_name op }
{
    match op {
        ShiftOp::Lsl => Class::Lsl,
        ShiftOp::Lsr => Class::Lsr,
        ShiftOp::Asr => Class::Asr,
        ShiftOp::Ror => Class::Ror,
        ShiftOp::Rrx => Class::Mov,
    }
}

#[tactic(auto, unfolding(crate::specs::Naming::mov_name))]
fn mov_name(op2: Op2) -> Class
    ensures { result ≡ mov_name op2 }
{
    match op2 {
        Op2::Imm(_) | Op2::ShiftImm { imm: 0, .. } => Class::Mov,
        Op2::ShiftImm { shift_op, .. } | Op2::ShiftReg { shift_op, .. } => shift_name(shift_op),
    }
}

// A push or a pop of one register: bits 27 to 25 are 010, a single transfer's.
#[tactic(auto, using(classes::proofs::Numbers::same_class), unfolding(crate::specs::Naming::is_of_one))]
fn is_of_one(name: Class, word: u32) -> bool
    ensures { result ≡ is_of_one name word }
{
    // A remainder: with a mask beside the classes' tests the proof did not close.
    (word >> 25) % 8 == 0b010 && (name == Class::Push || name == Class::Pop)
}

// The register list of a word with this name: bits 15 to 0, or that one register.
#[tactic(auto, unfolding(crate::specs::Naming::regs_of))]
pub fn regs(name: Class, word: u32) -> u16
    ensures { result ≡ regs_of name word }
{
    if is_of_one(name, word) {
        sets::rd(word)
    } else {
        sets::list(word)
    }
}
