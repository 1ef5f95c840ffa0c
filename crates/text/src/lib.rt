// Text written into a buffer that the caller lends.
//
// A `Writer` puts one piece after the other. Two pieces, one after the other, are one: that is
// `wrote_then` of `proofs/Writers.antt`, which a caller's proof cites. `put_hex` alone writes over
// places of a line that stands already.
#![tactic(auto)]

pub mod writer;

ghost use Rattle.std.specs.Prelude.{◌≡◌, ◌+◌, ◌≤◌, ◌<◌, length};
ghost use Rattle.text.specs.Put.{Written};
ghost use Rattle.text.specs.Hex.{hex_digit, digits, hex};
ghost use Rattle.text.specs.Decimal.{decimal};

pub use writer::Writer;

// The digit that stands for a number below 16, in lower case.
#[tactic(auto, unfolding(crate::specs::Hex::hex_digit))]
fn hex_digit(d: u8) -> u8
    requires { d < 16 }
    ensures { result ≡ hex_digit d }
{
    if d < 10 { b'0' + d } else { b'a' + (d - 10) }
}

// The low `n` digits of `value` in a base up to 16, with leading zeros. They are made from the last
// to the first, so that each turn only divides by the base.
pub(crate) fn put_digits(out: &mut [u8], at: usize, base: u64, n: usize, value: u64) -> usize
    requires { (0 < base) × (base ≤ 16) × (at + n ≤ length out.old) }
    ensures { Written out.old at (digits base n value) result out.new }
{
    let mut rest = value;
    for i in (0..n).rev() {
        out[at + i] = hex_digit((rest % base) as u8);
        rest /= base;
    }
    at + n
}

// The low `digits` hexadecimal digits of `value`, with leading zeros.
#[tactic(auto, unfolding(crate::specs::Hex::hex))]
pub fn put_hex(out: &mut [u8], at: usize, digits: usize, value: u32) -> usize
    requires { (digits ≤ 8) × (at + digits ≤ length out.old) }
    ensures { Written out.old at (hex digits value) result out.new }
{
    put_digits(out, at, 16, digits, value as u64)
}

// How many bytes the decimal text of `value` has.
pub fn decimal_len(value: u64) -> usize
    ensures { result ≡ length (decimal value) }
{
    value.max(1).ilog10() as usize + 1
}
