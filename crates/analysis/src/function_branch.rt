// Branches (B, not BL) to other functions, by the instructions before them (function_branch.rs).
ghost use Rattle.std.specs.Prelude.{◌≡◌};
ghost use Rattle.analysis.specs.FunctionBranch.{function_branch, at_start, movge_pc_lr, mov_from_sp, ldr_ip_pc, add_r0_ip, after_eors, before_branch, after_ldr, is_function_branch};

use crate::pattern::{IP, LR, PC, SP, is_data, is_pre, is_register, is_when};
use arm::Ins;
use classes::{Class, Cond};

#[derive(Clone, Copy, PartialEq, Eq)]
pub enum FunctionBranchState {
    Start,
    Eors,
    MovgePcLr,
    MovFromSp,
    LdrIpPc,
    AddR0Ip,
    FunctionBranch,
}

impl FunctionBranchState {
    pub fn handle(self, ins: Ins) -> FunctionBranchState
        ensures { result ≡ function_branch self ins }
    {
        match self {
            FunctionBranchState::Start => start(ins),
            FunctionBranchState::Eors => after_eors(ins),
            FunctionBranchState::LdrIpPc => after_ldr(ins),
            FunctionBranchState::MovgePcLr
            | FunctionBranchState::MovFromSp
            | FunctionBranchState::AddR0Ip => branch(ins),
            FunctionBranchState::FunctionBranch => FunctionBranchState::Start,
        }
    }

    pub fn is_function_branch(self) -> bool
        ensures { result ≡ is_function_branch self }
    {
        self == FunctionBranchState::FunctionBranch
    }
}

#[tactic(auto, unfolding(crate::specs::FunctionBranch::at_start))]
fn start(ins: Ins) -> FunctionBranchState
    ensures { result ≡ at_start ins }
{
    if is_data(ins, Class::Eor, Cond::Al, true) {
        FunctionBranchState::Eors
    } else if movge_pc_lr(ins) {
        FunctionBranchState::MovgePcLr
    } else if mov_from_sp(ins) {
        FunctionBranchState::MovFromSp
    } else if ldr_ip_pc(ins) {
        FunctionBranchState::LdrIpPc
    } else {
        FunctionBranchState::Start
    }
}

#[tactic(auto, unfolding(crate::specs::FunctionBranch::movge_pc_lr))]
fn movge_pc_lr(ins: Ins) -> bool
    ensures { result ≡ movge_pc_lr ins }
{
    is_data(ins, Class::Mov, Cond::Ge, false) && ins.rd == PC && is_register(ins.op2, LR)
}

#[tactic(auto, unfolding(crate::specs::FunctionBranch::mov_from_sp))]
fn mov_from_sp(ins: Ins) -> bool
    ensures { result ≡ mov_from_sp ins }
{
    is_data(ins, Class::Mov, Cond::Al, false) && is_register(ins.op2, SP)
}

#[tactic(auto, unfolding(crate::specs::FunctionBranch::ldr_ip_pc))]
fn ldr_ip_pc(ins: Ins) -> bool
    ensures { result ≡ ldr_ip_pc ins }
{
    is_when(ins, Class::Ldr, Cond::Al) && ins.rd == IP && is_pre(ins.addr, PC)
}

#[tactic(auto, unfolding(crate::specs::FunctionBranch::add_r0_ip))]
fn add_r0_ip(ins: Ins) -> bool
    ensures { result ≡ add_r0_ip ins }
{
    is_data(ins, Class::Add, Cond::Al, false)
        && ins.rd == 0
        && ins.rn == 0
        && is_register(ins.op2, IP)
}

#[tactic(auto, unfolding(crate::specs::FunctionBranch::after_eors))]
fn after_eors(ins: Ins) -> FunctionBranchState
    ensures { result ≡ after_eors ins }
{
    if is_when(ins, Class::B, Cond::Mi) {
        FunctionBranchState::FunctionBranch
    } else if ins.updates_condition_flags {
        FunctionBranchState::Start
    } else {
        FunctionBranchState::Eors
    }
}

#[tactic(auto, unfolding(crate::specs::FunctionBranch::before_branch))]
fn branch(ins: Ins) -> FunctionBranchState
    ensures { result ≡ before_branch ins }
{
    if is_when(ins, Class::B, Cond::Al) {
        FunctionBranchState::FunctionBranch
    } else {
        FunctionBranchState::Start
    }
}

#[tactic(auto, unfolding(crate::specs::FunctionBranch::after_ldr))]
fn after_ldr(ins: Ins) -> FunctionBranchState
    ensures { result ≡ after_ldr ins }
{
    if add_r0_ip(ins) {
        FunctionBranchState::AddR0Ip
    } else {
        FunctionBranchState::Start
    }
}
