ghost use Rattle.std.specs.Prelude.{◌≡◌};
ghost use Rattle.modes.specs.Offset.{branch_offset, load_offset, destination, modulo};

use classes::fields::bit;

// The offset of a branch word, in words: bits 23 to 0 as two's complement.
#[tactic(auto, using(crate::proofs::OffsetLaws::offsets))]
pub fn branch_offset(word: u32) -> i32
    ensures { result ≡ branch_offset word }
{
    (word << 8).cast_signed() >> 8
}

// The offset of a load or store word, in bytes: bits 11 to 0, added where bit 23 is set and else subtracted.
#[tactic(auto, unfolding(crate::specs::Offset::load_offset))]
pub fn load_offset(word: u32) -> i32
    ensures { result ≡ load_offset word }
{
    let size = (word & 0xFFF) as i32;
    if bit(word, 23) { size } else { -size }
}

// The bits of `offset` in two's complement.
#[tactic(auto, using(crate::proofs::OffsetLaws::offsets))]
pub fn pattern(offset: i32) -> u32
    ensures { result ≡ modulo 0x1_0000_0000 offset }
{
    offset.cast_unsigned()
}

// Where a branch at `address` goes: `offset` words past the address of the second next instruction, and `extra` bytes more.
pub fn destination(address: u32, offset: i32, extra: u32) -> u32
    ensures { result ≡ destination address offset extra }
{
    let sum = address as u64 + 8 + 4 * (pattern(offset) as u64) + extra as u64;
    (sum % 0x1_0000_0000) as u32
}
