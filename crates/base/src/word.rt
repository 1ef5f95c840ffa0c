// Little-endian words of a module's code.
ghost use Rattle.std.specs.Prelude.{◌≡◌};
ghost use Rattle.base.specs.Words.{first_word, word_from};

// The word that a part of the code begins with.
#[tactic(auto, unfolding(crate::specs::Words::first_word))]
fn first_word(code: &[u8]) -> Option<u32>
    ensures { result ≡ first_word code.now }
{
    let bytes = code.first_chunk::<4>()?;
    Some(u32::from_le_bytes(*bytes))
}

// The word at an address: the part of the code that begins there is read.
#[tactic(auto, unfolding(crate::specs::Words::word_from))]
pub fn word_from(code: &[u8], base: u32, address: u32) -> Option<u32>
    ensures { result ≡ word_from code.now base address }
{
    let offset = address.checked_sub(base)? as usize;
    first_word(code.get(offset..)?)
}
