// The manual's instruction of a word, by the fields that tell encodings apart: the condition, `op` (bits 27 to 20), `odd` (bit 12)
// and `low` (bits 7 to 4). One decision, split where the manual's classification splits it. The fields stay numbers, as in the diagrams.
ghost use Rattle.std.specs.Prelude.{◌≡◌, ℕ, ◌+◌, ◌/◌, ◌%◌, ◌<◌, ◌≤◌};
ghost use Rattle.encodings.specs.Encodings.{encoding_of};
ghost use Rattle.encodings.specs.Deciding.{encoding_at};

use classes::Class;

#[tactic(auto, using(crate::proofs::Table::fields))]
pub fn encoding(word: u32) -> Class
    ensures { result ≡ encoding_of word }
{
    let op = (word >> 20) & 0xFF;
    let odd = (word >> 12) & 1;
    let low = (word >> 4) & 15;
    if word >> 28 == 15 {
        unconditional(op, low)
    } else {
        conditional(op, odd, low)
    }
}

// Condition 1111: PLD, BLX with an immediate and the coprocessor forms ending in 2, which have neither an unindexed form with U = 0
// (0xC0, 0xC1) nor a transfer of two registers (0xC4, 0xC5). PLD has B and L set, and with a register offset (0x60 to 0x7F) bit 4 clear.
#[tactic(auto, using(crate::proofs::Table::lasts, std::proofs::lemmas::Bool::Decides::nat_tests))]
fn unconditional(op: u32, low: u32) -> Class
    requires { (op < 256) × (low < 16) }
    ensures { (odd : ℕ) → odd < 2 → result ≡ encoding_at 1 op odd low }
{
    match (op, op % 8, low % 2) {
        (0x40..=0x5F, 5 | 7, _) | (0x60..=0x7F, 5 | 7, 0) => Class::Pld,
        (0xA0..=0xBF, _, _) => Class::Blx1,
        (0xC2..=0xC3 | 0xC6..=0xDF, _, _) => coprocessor_transfer(op),
        (0xE0..=0xEF, _, _) => coprocessor(op, low),
        _ => Class::Illegal,
    }
}

// By bits 27 to 25, the manual's first cut. A register offset (0x60 to 0x7F) has bit 4 clear.
#[tactic(auto, using(crate::proofs::Table::others, std::proofs::lemmas::Bool::Decides::nat_tests))]
fn conditional(op: u32, odd: u32, low: u32) -> Class
    requires { (op < 256) × (odd < 2) × (low < 16) }
    ensures { result ≡ encoding_at 0 op odd low }
{
    match op {
        0x00..=0x1F => registers(op, odd, low),
        0x20..=0x3F => immediates(op),
        0x40..=0x5F => single_transfer(op),
        0x60..=0x7F if low % 2 == 0 => single_transfer(op),
        0x80..=0x9F if op % 2 == 0 => Class::Stm,
        0x80..=0x9F => Class::Ldm,
        0xA0..=0xAF => Class::B,
        0xB0..=0xBF => Class::Bl,
        0xC4 => Class::Mcrr,
        0xC5 => Class::Mrrc,
        0xC2..=0xDF => coprocessor_transfer(op),
        0xE0..=0xEF => coprocessor(op, low),
        0xF0..=0xFF => Class::Swi,
        _ => Class::Illegal,
    }
}

// Bits 27 to 25 are 000: bits 7 and 4 are both one in multiplies, swaps and the extra loads and stores, and in nothing else.
fn registers(op: u32, odd: u32, low: u32) -> Class
    requires { (op < 32) × (odd < 2) × (low < 16) }
    ensures { result ≡ encoding_at 0 op odd low }
{
    match (low, op) {
        (9, _) => multiply(op),
        (11 | 13 | 15, _) => extra_transfer(op, odd, low),
        (_, 0x10 | 0x12 | 0x14 | 0x16) => control(op, low),
        _ => data_processing(op),
    }
}

// Bits 27 to 25 are 001. Compares without S: MSR, and what the manual leaves undefined.
#[tactic(auto, using(crate::proofs::Table::immediately))]
fn immediates(op: u32) -> Class
    requires { (32 ≤ op) × (op < 64) }
    ensures { (odd low : ℕ) → odd < 2 → low < 16 → result ≡ encoding_at 0 op odd low }
{
    match op {
        0x30 | 0x34 => Class::Illegal,
        0x32 | 0x36 => Class::Msr,
        _ => data_processing(op),
    }
}

// By the opcode, bits 24 to 21; the same with a register and with an immediate (bit 25). A compare comes here with S set.
#[tactic(auto, using(crate::proofs::Table::processes, std::proofs::lemmas::Bool::Decides::nat_tests))]
fn data_processing(op: u32) -> Class
    requires { (op < 64) × (op / 8 % 4 ≡ 2 → op % 2 ≡ 1) }
    ensures { (odd low : ℕ) → odd < 2 → low < 16 → low / 8 + low % 2 < op / 32 + 2 → result ≡ encoding_at 0 op odd low }
{
    match op / 2 % 16 {
        0 => Class::And,
        1 => Class::Eor,
        2 => Class::Sub,
        3 => Class::Rsb,
        4 => Class::Add,
        5 => Class::Adc,
        6 => Class::Sbc,
        7 => Class::Rsc,
        8 => Class::Tst,
        9 => Class::Teq,
        10 => Class::Cmp,
        11 => Class::Cmn,
        12 => Class::Orr,
        13 => Class::Mov,
        14 => Class::Bic,
        _ => Class::Mvn,
    }
}

// The compares without S, with a register: the control and DSP extension space, by bits 22 and 21 and by bits 7 to 4.
#[tactic(auto, using(crate::proofs::Table::controls, std::proofs::lemmas::Bool::Decides::nat_tests))]
fn control(op: u32, low: u32) -> Class
    requires { (16 ≤ op) × (op < 24) × (op % 2 ≡ 0) × (low < 16) × (low / 8 + low % 2 < 2) }
    ensures { (odd : ℕ) → odd < 2 → result ≡ encoding_at 0 op odd low }
{
    match (op, low) {
        (0x10 | 0x14, 0) => Class::Mrs,
        (0x12 | 0x16, 0) => Class::Msr,
        (0x12, 1) => Class::Bx,
        (0x16, 1) => Class::Clz,
        (0x12, 3) => Class::Blx2,
        (0x10, 5) => Class::Qadd,
        (0x12, 5) => Class::Qsub,
        (0x14, 5) => Class::Qdadd,
        (0x16, 5) => Class::Qdsub,
        (0x12, 7) => Class::Bkpt,
        (0x10, 8..=15) => Class::Smlaxy,
        (0x12, 8 | 12) => Class::Smlawy,
        (0x12, 10 | 14) => Class::Smulwy,
        (0x14, 8..=15) => Class::Smlalxy,
        (0x16, 8..=15) => Class::Smulxy,
        _ => Class::Illegal,
    }
}

// Multiplies by bits 23 to 21, and the swaps.
#[tactic(auto, using(crate::proofs::Table::multiplies, std::proofs::lemmas::Bool::Decides::nat_tests))]
fn multiply(op: u32) -> Class
    requires { op < 32 }
    ensures { (odd : ℕ) → odd < 2 → result ≡ encoding_at 0 op odd 9 }
{
    match op {
        0x00..=0x01 => Class::Mul,
        0x02..=0x03 => Class::Mla,
        0x08..=0x09 => Class::Umull,
        0x0A..=0x0B => Class::Umlal,
        0x0C..=0x0D => Class::Smull,
        0x0E..=0x0F => Class::Smlal,
        0x10 => Class::Swp,
        0x14 => Class::Swpb,
        _ => Class::Illegal,
    }
}

// Halfwords, signed bytes and doublewords, by bits 6 and 5, L and bit 12: an odd first register of a doubleword is UNDEFINED.
#[tactic(auto, using(crate::proofs::Table::extras, std::proofs::lemmas::Bool::Decides::nat_tests))]
fn extra_transfer(op: u32, odd: u32, low: u32) -> Class
    requires { (op < 32) × (odd < 2) × (11 ≤ low) × (low < 16) × (low % 2 ≡ 1) }
    ensures { result ≡ encoding_at 0 op odd low }
{
    match (low, op % 2, odd) {
        (11, 0, _) => Class::Strh,
        (11, _, _) => Class::Ldrh,
        (13, 1, _) => Class::Ldrsb,
        (15, 1, _) => Class::Ldrsh,
        (13, _, 0) => Class::Ldrd,
        (15, _, 0) => Class::Strd,
        _ => Class::Illegal,
    }
}

// Words and bytes, by W and L, B, and P: post-indexed with W set is a T form.
#[tactic(auto, using(crate::proofs::Table::singles, std::proofs::lemmas::Bool::Decides::nat_tests))]
fn single_transfer(op: u32) -> Class
    requires { (64 ≤ op) × (op < 128) }
    ensures { (odd low : ℕ) → odd < 2 → low < 16 → op / 32 + low % 2 < 4 → result ≡ encoding_at 0 op odd low }
{
    let before = op / 16 % 2;
    let byte = op / 4 % 2;
    match (op % 4, before, byte) {
        (2, 0, 0) => Class::Strt,
        (2, 0, _) => Class::Strbt,
        (3, 0, 0) => Class::Ldrt,
        (3, 0, _) => Class::Ldrbt,
        (0 | 2, _, 0) => Class::Str,
        (0 | 2, _, _) => Class::Strb,
        (_, _, 0) => Class::Ldr,
        _ => Class::Ldrb,
    }
}

// LDC and STC, by L; under every condition.
#[tactic(auto, using(crate::proofs::Table::transfers, std::proofs::lemmas::Bool::Decides::nat_tests))]
fn coprocessor_transfer(op: u32) -> Class
    requires { (194 ≤ op) × (op < 224) × (op / 2 ≡ 98 → ⊥) }
    ensures { (nv odd low : ℕ) → nv < 2 → odd < 2 → low < 16 → result ≡ encoding_at nv op odd low }
{
    if op % 2 == 0 { Class::Stc } else { Class::Ldc }
}

// CDP, MCR and MRC, by bit 4 and L; under every condition.
#[tactic(auto, using(crate::proofs::Table::operations, std::proofs::lemmas::Bool::Decides::nat_tests))]
fn coprocessor(op: u32, low: u32) -> Class
    requires { (224 ≤ op) × (op < 240) × (low < 16) }
    ensures { (nv odd : ℕ) → nv < 2 → odd < 2 → result ≡ encoding_at nv op odd low }
{
    match (low % 2, op % 2) {
        (0, _) => Class::Cdp,
        (_, 0) => Class::Mcr,
        _ => Class::Mrc,
    }
}
