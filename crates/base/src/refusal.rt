// The refusals of document 01, and from 17 on of document 02, by name. docs/REFUSALS.md has the whole table.
ghost use Rattle.std.specs.Prelude.{◌≡◌, nat_eq};
ghost use Rattle.std.specs.Cmp.{nat_eq_equiv, on_equiv, partial_equiv_from_equiv};
ghost use Rattle.std.specs.Ordering.{on};
ghost use Rattle.base.specs.Refusals.{refusal_no};

#[derive(Clone, Copy)]
pub enum Refusal {
    BadWindow,
    BadStart,
    UnalignedStart,
    BadLists,
    IllegalOpcode,
    ShiftedBase,
    OffsetByItself,
    PcIntoPc,
    BranchOutside,
    PoolOutside,
    UndefinedRegister,
    Beyond32Bits,
    ListFull,
    NoEpilogue,
    NotDone,
    BadRequest,
    EmptyRecord,
    NoRoom,
    // Any other number, as a walk that a host made up may hold it; no library function makes one.
    Other(u8),
}

// A refusal's number.
impl From<Refusal> for u8 {
    ghost from_gives = { λ refusal n. n ≡ refusal_no refusal };

    fn from(refusal: Refusal) -> u8 {
        match refusal {
            Refusal::BadWindow => 1,
            Refusal::BadStart => 2,
            Refusal::UnalignedStart => 3,
            Refusal::BadLists => 4,
            Refusal::IllegalOpcode => 5,
            Refusal::ShiftedBase => 6,
            Refusal::OffsetByItself => 7,
            Refusal::PcIntoPc => 8,
            Refusal::BranchOutside => 9,
            Refusal::PoolOutside => 10,
            Refusal::UndefinedRegister => 11,
            Refusal::Beyond32Bits => 12,
            Refusal::ListFull => 13,
            Refusal::NoEpilogue => 14,
            Refusal::NotDone => 15,
            Refusal::BadRequest => 16,
            Refusal::EmptyRecord => 17,
            Refusal::NoRoom => 18,
            Refusal::Other(number) => number,
        }
    }
}

// By their numbers, so that a made-up one is the name that has its number.
impl PartialEq for Refusal {
    ghost eq = { on refusal_no nat_eq };

    ghost laws = { partial_equiv_from_equiv (on_equiv refusal_no nat_eq_equiv) };

    fn eq(&self, other: &Refusal) -> bool {
        u8::from(*self) == u8::from(*other)
    }
}

impl Eq for Refusal {
    ghost laws = { on_equiv refusal_no nat_eq_equiv };
}
