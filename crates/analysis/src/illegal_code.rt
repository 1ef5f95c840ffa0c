// Code sequences that no program has (illegal_code.rs, the ARM arms).
ghost use Rattle.std.specs.Prelude.{◌≡◌};
ghost use Rattle.analysis.specs.IllegalCode.{illegal_code, is_shift, dereferenced, offset_by_itself, reads_pc_into_pc, pc_in_list};

use crate::pattern::{PC, by_itself};
use arm::Ins;
use base::refusal::Refusal;
use classes::Class;

#[derive(Clone, Copy, PartialEq, Eq)]
pub enum IllegalCodeState {
    Start,
    ShiftedRegisterValue { reg: u8 },
    Illegal { reason: Refusal },
}

impl IllegalCodeState {
    #[tactic(auto, using(classes::proofs::Numbers::same_class), unfolding(crate::specs::IllegalCode::illegal_code))]
    pub fn handle(self, ins: Ins) -> IllegalCodeState
        ensures { result ≡ illegal_code self ins }
    {
        if ins.class == Class::Illegal {
            IllegalCodeState::Illegal {
                reason: Refusal::IllegalOpcode,
            }
        } else if is_shift(ins) {
            IllegalCodeState::ShiftedRegisterValue { reg: ins.rd }
        } else if dereferenced_by(self, ins) {
            IllegalCodeState::Illegal {
                reason: Refusal::ShiftedBase,
            }
        } else if offset_by_itself(ins) {
            IllegalCodeState::Illegal {
                reason: Refusal::OffsetByItself,
            }
        } else if reads_pc_into_pc(ins) {
            IllegalCodeState::Illegal {
                reason: Refusal::PcIntoPc,
            }
        } else {
            IllegalCodeState::Start
        }
    }
}

#[tactic(auto, using(classes::proofs::Numbers::same_class), unfolding(crate::specs::IllegalCode::is_shift))]
fn is_shift(ins: Ins) -> bool
    ensures { result ≡ is_shift ins }
{
    matches!(ins.class, Class::Lsl | Class::Lsr | Class::Asr | Class::Ror)
}

#[tactic(auto, using(classes::proofs::Numbers::same_class), unfolding(crate::specs::IllegalCode::dereferenced))]
fn dereferenced_by(state: IllegalCodeState, ins: Ins) -> bool
    ensures { result ≡ dereferenced state ins }
{
    matches!(state, IllegalCodeState::ShiftedRegisterValue { reg } if ins.class == Class::Stm && reg == ins.rn)
}

#[tactic(auto, using(classes::proofs::Numbers::same_class), unfolding(crate::specs::IllegalCode::offset_by_itself))]
fn offset_by_itself(ins: Ins) -> bool
    ensures { result ≡ offset_by_itself ins }
{
    ins.class == Class::Str && by_itself(ins.addr)
}

fn pc_in_list(regs: u16) -> bool
    ensures { result ≡ pc_in_list regs }
{
    regs >> PC & 1 == 1
}

#[tactic(auto, using(classes::proofs::Numbers::same_class), unfolding(crate::specs::IllegalCode::reads_pc_into_pc))]
fn reads_pc_into_pc(ins: Ins) -> bool
    ensures { result ≡ reads_pc_into_pc ins }
{
    ins.class == Class::Ldm && ins.rn == PC && pc_in_list(ins.regs)
}
