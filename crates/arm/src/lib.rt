// ARMv5TE instruction words, decoded as the ARM Architecture Reference Manual says.
#![tactic(auto)]

mod naming;

ghost use Rattle.std.specs.Prelude.{◌≡◌};
ghost use Rattle.arm.specs.Naming.{class_of};
ghost use Rattle.arm.specs.Ins.{decode_of, is_conditional};

use classes::{AddrLdrStr, Class, Cond, LdmStmMode, Op2, fields};
use encodings::encoding;
use modes::operands;
use regsets::sets;

// A decoded word. Every field is read by its place, whatever the class: `rd` is bits 15 to 12 and `rn` bits 19 to 16 also where a page
// gives them other names, `op2` is addressing mode 1, `addr` mode 2 and `mode` mode 4. Only `regs`, bits 15 to 0, is the one register of a
// push or a pop that is a single transfer. Sets and flag follow the instruction's page.
#[derive(Clone, Copy)]
pub struct Ins {
    pub class: Class,
    pub cond: Cond,
    pub s: bool,
    pub rd: u8,
    pub rn: u8,
    pub rm: u8,
    pub op2: Op2,
    pub addr: AddrLdrStr,
    pub mode: LdmStmMode,
    pub regs: u16,
    pub target: u32,
    pub uses: u16,
    pub defs: u16,
    pub updates_condition_flags: bool,
}

impl Ins {
    // A condition below 1110: of a word's conditions any other than 1110 and 1111.
    #[tactic(auto, unfolding(classes::specs::Cond::cond_no))]
    pub fn is_conditional(self) -> bool
        ensures { result ≡ is_conditional self.cond }
    {
        u8::from(self.cond) < u8::from(Cond::Al)
    }
}

// The class of a word.
#[tactic(auto, unfolding(crate::specs::Naming::class_of))]
pub fn class_of(word: u32) -> Class
    ensures { result ≡ class_of word }
{
    naming::name(encoding::encoding(word), word)
}

// The instruction that a word is at an address.
#[tactic(auto, unfolding(crate::specs::Naming::class_of, crate::specs::Ins::decode_of))]
pub fn decode(word: u32, address: u32) -> Ins
    ensures { result ≡ decode_of word address }
{
    let encoding = encoding::encoding(word);
    let form = sets::form(encoding);
    let class = naming::name(encoding, word);
    Ins {
        class,
        cond: fields::cond(word),
        s: fields::bit(word, 20),
        rd: fields::rd(word),
        rn: fields::rn(word),
        rm: fields::rm(word),
        op2: operands::op2(word),
        addr: operands::addr(word),
        mode: operands::mode(word),
        regs: naming::regs(class, word),
        target: operands::target(word, address),
        uses: sets::uses(form, word),
        defs: sets::defs(form, word),
        updates_condition_flags: sets::updates_condition_flags(form, word),
    }
}
