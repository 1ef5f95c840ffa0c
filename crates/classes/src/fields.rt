// The fields of an instruction word, at the places that the manual's diagrams give them.
ghost use Rattle.std.specs.Prelude.{◌≡◌, ◌<◌, eqb};
ghost use Rattle.classes.specs.Fields.{bit, cond_of, rn_of, rd_of, rs_of, rm_of};

use crate::Cond;

// Whether a bit is set.
pub fn bit(word: u32, place: u32) -> bool
    requires { place < 32 }
    ensures { result ≡ eqb (bit place word) 1 }
{
    (word >> place) & 1 == 1
}

// The condition: bits 31 to 28.
pub fn cond(word: u32) -> Cond
    ensures { result ≡ cond_of word }
{
    match word >> 28 {
        0 => Cond::Eq,
        1 => Cond::Ne,
        2 => Cond::Hs,
        3 => Cond::Lo,
        4 => Cond::Mi,
        5 => Cond::Pl,
        6 => Cond::Vs,
        7 => Cond::Vc,
        8 => Cond::Hi,
        9 => Cond::Ls,
        10 => Cond::Ge,
        11 => Cond::Lt,
        12 => Cond::Gt,
        13 => Cond::Le,
        14 => Cond::Al,
        _ => Cond::Nv,
    }
}

// The registers that four-bit fields name.
pub fn rn(word: u32) -> u8
    ensures { result ≡ rn_of word }
{
    ((word >> 16) & 15) as u8
}

pub fn rd(word: u32) -> u8
    ensures { result ≡ rd_of word }
{
    ((word >> 12) & 15) as u8
}

pub fn rs(word: u32) -> u8
    ensures { result ≡ rs_of word }
{
    ((word >> 8) & 15) as u8
}

pub fn rm(word: u32) -> u8
    ensures { result ≡ rm_of word }
{
    (word & 15) as u8
}
