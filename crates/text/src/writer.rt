// A lent buffer that is written from its start on.
ghost use Rattle.std.specs.Prelude.{[], ◌∷◌, ◌+◌, ◌≤◌, ◌≡◌, length};

use crate::{decimal_len, put_digits, put_hex};

// The buffer, and the place up to which it is written.
#[derive(Drop)]
pub struct Writer<'a> {
    pub out: &'a mut [u8],
    pub at: usize,
    ghost within: { at ≤ length out.now },
}

impl<'a> Writer<'a> {
    ghost use Rattle.text.specs.Decimal.{decimal};
    ghost use Rattle.text.specs.Hex.{digits, hex};
    ghost use Rattle.text.specs.Writers.{HasRoom, Wrote};

    // At the start of `out`.
    pub fn new(out: &'a mut [u8]) -> Writer<'a>
        ensures same_buffer { result.out.ghost_name ≡ out.entry.ghost_name }
        ensures start { result.at ≡ 0 }
        ensures unwritten { result.out.now ≡ out.old }
    {
        Writer { out, at: 0 }
    }

    // One byte.
    pub fn put_byte(&mut self, byte: u8)
        requires { HasRoom self.old 1 }
        ensures { Wrote self.old self.new (byte ∷ []) }
    {
        self.out[self.at] = byte;
        self.at += 1;
    }

    // All of `bytes`.
    pub fn put_bytes(&mut self, bytes: &[u8])
        requires { HasRoom self.old (length bytes.now) }
        ensures { Wrote self.old self.new bytes.now }
    {
        let end = self.at + bytes.len();
        self.out[self.at..end].copy_from_slice(bytes);
        self.at = end;
    }

    // The low `digits` hexadecimal digits of `value`, with leading zeros.
    #[tactic(auto, using(crate::proofs::Hex::lengths))]
    pub fn put_hex(&mut self, digits: usize, value: u32)
        requires { (digits ≤ 8) × HasRoom self.old digits }
        ensures { Wrote self.old self.new (hex digits value) }
    {
        self.at = put_hex(self.out, self.at, digits, value);
    }

    // The low `count` decimal digits of `value`, with leading zeros.
    #[tactic(auto, using(crate::proofs::Hex::lengths))]
    pub fn put_digits(&mut self, count: usize, value: u32)
        requires { HasRoom self.old count }
        ensures { Wrote self.old self.new (digits 10 count value) }
    {
        self.at = put_digits(self.out, self.at, 10, count, value as u64);
    }

    // The decimal text of `value`, without leading zeros.
    pub fn put_decimal(&mut self, value: u64)
        requires { HasRoom self.old (length (decimal value)) }
        ensures { Wrote self.old self.new (decimal value) }
    {
        self.at = put_digits(self.out, self.at, 10, decimal_len(value), value);
    }
}
