// What a decoder's answers are made of: the classes, the conditions, the operands and the forms, and the number of each class and condition.
#![tactic(auto)]

pub mod fields;

ghost use Rattle.std.specs.Prelude.{◌≡◌, nat_eq};
ghost use Rattle.std.specs.Cmp.{nat_eq_equiv, on_equiv, partial_equiv_from_equiv};
ghost use Rattle.std.specs.Ordering.{on};
ghost use Rattle.classes.specs.Class.{class_no};
ghost use Rattle.classes.specs.Cond.{cond_no};

// The manual's ARM instructions in the order of their printed names, then document 01's own names.
#[derive(Clone, Copy, PartialEq, Eq)]
pub enum Class {
    Adc,
    Add,
    And,
    B,
    Bic,
    Bkpt,
    Bl,
    Blx1,
    Blx2,
    Bx,
    Cdp,
    Clz,
    Cmn,
    Cmp,
    Eor,
    Ldc,
    Ldm,
    Ldr,
    Ldrb,
    Ldrbt,
    Ldrd,
    Ldrh,
    Ldrsb,
    Ldrsh,
    Ldrt,
    Mcr,
    Mcrr,
    Mla,
    Mov,
    Mrc,
    Mrrc,
    Mrs,
    Msr,
    Mul,
    Mvn,
    Orr,
    Pld,
    Qadd,
    Qdadd,
    Qdsub,
    Qsub,
    Rsb,
    Rsc,
    Sbc,
    Smlal,
    Smlalxy,
    Smlawy,
    Smlaxy,
    Smull,
    Smulwy,
    Smulxy,
    Stc,
    Stm,
    Str,
    Strb,
    Strbt,
    Strd,
    Strh,
    Strt,
    Sub,
    Swi,
    Swp,
    Swpb,
    Teq,
    Tst,
    Umlal,
    Umull,
    Push,
    Pop,
    Lsl,
    Lsr,
    Asr,
    Ror,
    Illegal,
}

// A class's place in the order of its declaration.
impl From<Class> for u8 {
    ghost from_gives = { λ class n. n ≡ class_no class };

    #[tactic(auto, using(crate::proofs::Numbers::numbers))]
    fn from(class: Class) -> u8 {
        class as u8
    }
}

// A condition, in the order of the numbers that its field has.
#[derive(Clone, Copy)]
pub enum Cond {
    Eq,
    Ne,
    Hs,
    Lo,
    Mi,
    Pl,
    Vs,
    Vc,
    Hi,
    Ls,
    Ge,
    Lt,
    Gt,
    Le,
    Al,
    Nv,
    // Any other number, of an instruction that was made up; no word has it.
    Other(u8),
}

// A condition's number: what its field has.
impl From<Cond> for u8 {
    ghost from_gives = { λ cond n. n ≡ cond_no cond };

    #[tactic(auto, unfolding(crate::specs::Cond::cond_no))]
    fn from(cond: Cond) -> u8 {
        match cond {
            Cond::Eq => 0,
            Cond::Ne => 1,
            Cond::Hs => 2,
            Cond::Lo => 3,
            Cond::Mi => 4,
            Cond::Pl => 5,
            Cond::Vs => 6,
            Cond::Vc => 7,
            Cond::Hi => 8,
            Cond::Ls => 9,
            Cond::Ge => 10,
            Cond::Lt => 11,
            Cond::Gt => 12,
            Cond::Le => 13,
            Cond::Al => 14,
            Cond::Nv => 15,
            Cond::Other(number) => number,
        }
    }
}

// By their numbers, so that a made-up one is the name that has its number.
impl PartialEq for Cond {
    ghost eq = { on cond_no nat_eq };

    ghost laws = { partial_equiv_from_equiv (on_equiv cond_no nat_eq_equiv) };

    fn eq(&self, other: &Cond) -> bool {
        u8::from(*self) == u8::from(*other)
    }
}

impl Eq for Cond {
    ghost laws = { on_equiv cond_no nat_eq_equiv };
}

// A shift as addressing mode 1 names it; `Rrx` is the encoding of ROR #0.
#[derive(Clone, Copy, PartialEq, Eq)]
pub enum ShiftOp {
    Lsl,
    Lsr,
    Asr,
    Ror,
    Rrx,
}

// The second operand of data processing (addressing mode 1).
#[derive(Clone, Copy, PartialEq, Eq)]
pub enum Op2 {
    Imm(u32),
    ShiftImm { rm: u8, shift_op: ShiftOp, imm: u8 },
    ShiftReg { rm: u8, shift_op: ShiftOp, rs: u8 },
}

// The offset of a load or store of a word or byte (addressing mode 2).
#[derive(Clone, Copy, PartialEq, Eq)]
pub enum LdrStrOffset {
    Imm(i32),
    Reg {
        rm: u8,
        shift_op: ShiftOp,
        imm: u8,
        subtract: bool,
    },
}

// Its address: the offset is added before the access or after it. `Post` always writes its base back.
#[derive(Clone, Copy, PartialEq, Eq)]
pub enum AddrLdrStr {
    Pre {
        rn: u8,
        offset: LdrStrOffset,
        writeback: bool,
    },
    Post {
        rn: u8,
        offset: LdrStrOffset,
    },
}

// How a block transfer moves its base (addressing mode 4).
#[derive(Clone, Copy, PartialEq, Eq)]
pub enum LdmStmMode {
    Da,
    Ia,
    Db,
    Ib,
}

// What an instruction's operands are, as far as the registers that it reads and writes go.
#[derive(Clone, Copy, PartialEq, Eq)]
pub enum Form {
    Compute,
    Compare,
    Move,
    Multiply,
    MultiplyAdd,
    MultiplyLong,
    MultiplyAddLong,
    Saturate,
    CountZeros,
    Branch,
    BranchLink,
    BranchRegister,
    BranchLinkRegister,
    Trap,
    Load,
    Store,
    Preload,
    LoadExtra,
    StoreExtra,
    LoadDouble,
    StoreDouble,
    LoadBlock,
    StoreBlock,
    Swap,
    StatusRead,
    StatusWrite,
    CoprocessorTransfer,
    ToCoprocessor,
    FromCoprocessor,
    PairToCoprocessor,
    PairFromCoprocessor,
    Nothing,
}
