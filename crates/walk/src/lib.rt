// The walk between two calls (functions.rs of ds-decomp, ParseFunctionContext in ARM mode), its two ends, and the check of registers.
//
// An address that may be missing is 0 where it is: no address of a program is 0, and the source's `max` and `<` on options then are those
// of numbers.
#![tactic(auto)]

pub mod checking;
pub mod into_function;

use analysis::function_branch::FunctionBranchState;
use analysis::illegal_code::IllegalCodeState;
use analysis::inline_table::InlineTableState;
use analysis::jump_table::JumpTableStateArm;
use base::refusal::Refusal;
use predicates::Previous;
use registers::Registers;

// The host's choices for a walk.
#[derive(Clone, Copy)]
pub struct Options {
    pub base: u32,
    pub module_start: u32,
    pub module_end: u32,
    pub known_end: Option<u32>,
    pub check: bool,
}

// How far a walk has come. `saved_registers` is what its first instruction saves; `instruction_bytes` is the sum of its instructions' sizes.
#[derive(Clone, Copy)]
pub struct Progress {
    pub start: u32,
    pub address: u32,
    pub last_conditional_destination: u32,
    pub last_pool_address: u32,
    pub jump_table_end_address: u32,
    pub defined_registers: u16,
    pub saved_registers: u32,
    pub instruction_bytes: u32,
    pub previous: Previous,
}

#[derive(Clone, Copy)]
pub struct Machines {
    pub jump_table: JumpTableStateArm,
    pub function_branch: FunctionBranchState,
    pub inline_table: InlineTableState,
    pub illegal_code: IllegalCodeState,
}

// The entries of each lent list.
#[derive(Clone, Copy, Default)]
pub struct Counts {
    pub labels: usize,
    pub pools: usize,
    pub jump_tables: usize,
    pub inline_tables: usize,
    pub calls: usize,
}

// `saved_registers` of its first instruction is no field of the source's record.
#[derive(Clone, Copy, PartialEq, Eq, Default)]
pub struct Record {
    pub start: u32,
    pub end: u32,
    pub first_instruction: u32,
    pub last_instruction_end: u32,
    pub saved_registers: u32,
}

// What a call answers: a walk that goes on has neither a record nor a refusal, so there are three. `register` is the undefined one at
// `UndefinedRegister`, and 0 elsewhere.
#[derive(Clone, Copy, PartialEq, Eq)]
pub enum Answer {
    Going,
    Accepted(Record),
    Refused {
        refusal: Refusal,
        address: u32,
        register: u8,
    },
}

// A walk between two calls. `result` is `Going` before its end.
#[derive(Clone, Copy)]
pub struct Walk {
    pub progress: Progress,
    pub machines: Machines,
    pub registers: Registers,
    pub counts: Counts,
    pub result: Answer,
}
