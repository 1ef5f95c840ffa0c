// `new` and `into_function`: the walk before its first step, and the record at its end.
ghost use Rattle.std.specs.Prelude.{◌≡◌};
ghost use Rattle.walk.specs.IntoFunction.{begun, end_address, start_of, into_function};

use crate::{Answer, Counts, Machines, Options, Progress, Record, Walk};
use analysis::function_branch::FunctionBranchState;
use analysis::illegal_code::IllegalCodeState;
use analysis::inline_table::InlineTableState;
use analysis::jump_table::JumpTableStateArm;
use base::refusal::Refusal;
use predicates::Previous;
use registers::Registers;

// r0 to r3 may be arguments, r10 and r11 are not always saved, r12 is scratch; SP, LR and PC.
const DEFINED: u16 = 0b1111_1100_0000_1111;

#[tactic(auto, unfolding(crate::specs::IntoFunction::begun))]
pub fn new(start: u32, counts: Counts) -> Walk
    ensures { result ≡ begun start counts }
{
    Walk {
        progress: Progress {
            start,
            address: start,
            last_conditional_destination: 0,
            last_pool_address: 0,
            jump_table_end_address: 0,
            defined_registers: DEFINED,
            saved_registers: 0,
            instruction_bytes: 0,
            previous: Previous::default(),
        },
        machines: Machines {
            jump_table: JumpTableStateArm::CmpReg,
            function_branch: FunctionBranchState::Start,
            inline_table: InlineTableState::Start,
            illegal_code: IllegalCodeState::Start,
        },
        registers: Registers {
            // Written out: a clause knows too little of an array's default.
            values: [0; 16],
            sources: [0; 16],
        },
        counts,
        result: Answer::Going,
    }
}

// The known end, or the larger of the last instruction's end and the last pool's, which may leave 32 bits in a state that a host made up.
fn end_address(known_end: Option<u32>, last_instruction_end: u32, last_pool_address: u32) -> u64
    ensures { result ≡ end_address known_end last_instruction_end last_pool_address }
{
    match known_end {
        Some(end) => end as u64,
        None if last_pool_address == 0 => last_instruction_end as u64,
        None => (last_instruction_end as u64).max(last_pool_address as u64 + 4),
    }
}

// The first pool where that lies below the start.
#[tactic(auto, unfolding(crate::specs::IntoFunction::start_of))]
fn start_address(start: u32, first_pool: u32) -> u32
    ensures { result ≡ start_of start first_pool }
{
    if first_pool != 0 && first_pool < start {
        first_pool
    } else {
        start
    }
}

// The record, unless it ends past the module.
#[tactic(auto, unfolding(crate::specs::IntoFunction::into_function))]
pub fn into_function(
    o: Options,
    start: u32,
    last_instruction_end: u32,
    last_pool_address: u32,
    first_pool: u32,
    saved_registers: u32,
) -> Answer
    ensures { result ≡ into_function o start last_instruction_end last_pool_address first_pool saved_registers }
{
    let end = end_address(o.known_end, last_instruction_end, last_pool_address);
    if end > o.module_end as u64 {
        return Answer::Refused {
            refusal: Refusal::NoEpilogue,
            address: 0,
            register: 0,
        };
    }
    Answer::Accepted(Record {
        start: start_address(start, first_pool),
        end: end as u32,
        first_instruction: start,
        last_instruction_end,
        saved_registers,
    })
}
