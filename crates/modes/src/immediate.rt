ghost use Rattle.std.specs.Prelude.{◌≡◌};
ghost use Rattle.modes.specs.Immediate.{immediate};

// The immediate operand of a data-processing word: bits 7 to 0, rotated right by twice the field in bits 11 to 8 (A5.1).
#[tactic(auto, using(crate::proofs::ImmediateLaws::rotation))]
pub fn immediate(word: u32) -> u32
    ensures { result ≡ immediate word }
{
    (word & 0xFF).rotate_right(2 * ((word >> 8) & 15))
}
