// Sets of registers as 16 bits, and the pool words that registers hold (`register_values` of ds-decomp's walk).
#![tactic(auto)]

ghost use Rattle.std.specs.Prelude.{◌≡◌};
ghost use Rattle.registers.specs.Registers.{forgotten, holding, source_of, some_unless_0, register_of, lowest_missing, only};

// Per register, the pool word that it was loaded from: its value and its address, or zeros. Two arrays, as document 01 has them.
#[derive(Clone, Copy)]
pub struct Registers {
    pub values: [u32; 16],
    pub sources: [u32; 16],
}

impl Registers {
    // Written registers forget their pool words. A `while`: one turn for each register of the set, and a set is no range.
    pub fn forget(&mut self, set: u16)
        ensures { self.new ≡ forgotten self.old set }
    {
        let mut rest = set;
        while rest != 0 {
            let r = rest.trailing_zeros() as usize;
            self.values[r] = 0;
            self.sources[r] = 0;
            rest &= rest - 1;
        }
    }

    // A register now holds a pool word.
    #[tactic(auto, unfolding(crate::specs::Registers::holding))]
    pub fn hold(&mut self, register: u8, value: u32, source: u32)
        ensures { self.new ≡ holding self.old register value source }
    {
        let r = register as usize;
        if r < 16 {
            self.values[r] = value;
            self.sources[r] = source;
        }
    }

    // Where a register's pool word stands.
    #[tactic(auto, unfolding(crate::specs::Registers::source_of))]
    pub fn source_of(&self, register: u8) -> Option<u32>
        ensures { result ≡ some_unless_0 (source_of self.now register) }
    {
        self.sources
            .get(register as usize)
            .copied()
            .filter(|&source| source != 0)
    }
}

// The lowest register of one set that is not in another.
#[tactic(auto, using(crate::proofs::RegisterLaws::missing_by_zeros))]
pub fn lowest_missing(uses: u16, defined: u16) -> Option<u8>
    ensures { result ≡ register_of (lowest_missing uses defined) }
{
    let lowest = (uses & !defined).trailing_zeros() as u8;
    (lowest < 16).then_some(lowest)
}

// A register alone, of sixteen.
pub fn only(register: u8) -> u16
    ensures { result ≡ only register }
{
    1 << (register % 16)
}
