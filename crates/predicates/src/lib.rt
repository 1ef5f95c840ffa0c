// What the function walk asks of one instruction (functions.rs of ds-decomp), in the source's names.
#![tactic(auto)]

ghost use Rattle.std.specs.Prelude.{◌≡◌, ◌<◌, ◌/◌, ◌%◌, ◌^◌, eqb, nat_eq};
ghost use Rattle.std.specs.Cmp.{nat_eq_equiv, on_equiv, partial_equiv_from_equiv};
ghost use Rattle.std.specs.Ordering.{on};
ghost use Rattle.predicates.specs.Predicates.{saved_registers, is_branch, is_off_pc, is_pool_load, offset_of, pool_address};
ghost use Rattle.predicates.specs.Predicates.{is_bx, is_mov_pc, is_ldm_pc, is_pop_pc, is_branch_back, is_subs_pc_lr, is_ldr_pc, is_eor_pc, is_add_pc};
ghost use Rattle.predicates.specs.Predicates.{is_return_always, is_adds_four, is_return_after, is_return, is_nop, is_push, is_off_sp, is_stack_store, as_previous, mode_no, is_function_call};

use analysis::pattern::{LR, PC, SP, is_data, is_lsl, is_register, is_when};
use arm::Ins;
use classes::{AddrLdrStr, Class, Cond, LdmStmMode, LdrStrOffset, Op2, ShiftOp};

// What the walk asks of the word that the step before found: of none, all is false.
#[derive(Clone, Copy, Default)]
pub struct Previous {
    pub is_branch: bool,
    pub is_conditional: bool,
    pub is_adds_four: bool,
}

// The mode of the function that an instruction calls.
#[derive(Clone, Copy)]
pub enum Mode {
    Arm,
    Thumb,
    // Any other number, as a step that a host made up may put it in a row; no library function makes one.
    Other(u32),
}

// A mode's number in a row of the calls.
impl From<Mode> for u32 {
    ghost from_gives = { λ mode n. n ≡ mode_no mode };

    fn from(mode: Mode) -> u32 {
        match mode {
            Mode::Arm => 0,
            Mode::Thumb => 1,
            Mode::Other(number) => number,
        }
    }
}

// By their numbers, so that a made-up one is the name that has its number.
impl PartialEq for Mode {
    ghost eq = { on mode_no nat_eq };

    ghost laws = { partial_equiv_from_equiv (on_equiv mode_no nat_eq_equiv) };

    fn eq(&self, other: &Mode) -> bool {
        u32::from(*self) == u32::from(*other)
    }
}

impl Eq for Mode {
    ghost laws = { on_equiv mode_no nat_eq_equiv };
}

// A register stands in a list.
fn has(regs: u16, register: u8) -> bool
    requires { register < 16 }
    ensures { result ≡ eqb (regs / 2 ^ register % 2) 1 }
{
    regs >> register & 1 == 1
}

// Function::is_entry_instruction as a number: how many registers an unconditional push of LR saves, 0 for what is no entry.
#[tactic(auto, using(classes::proofs::Numbers::same_class), unfolding(crate::specs::Predicates::saved_registers))]
pub fn saved_registers(ins: Ins) -> u32
    ensures { result ≡ saved_registers ins }
{
    if !ins.is_conditional() && ins.class == Class::Push && has(ins.regs, LR) {
        ins.regs.count_ones()
    } else {
        0
    }
}

#[tactic(auto, using(classes::proofs::Numbers::same_class))]
pub fn is_branch(ins: Ins) -> bool
    ensures { result ≡ is_branch ins }
{
    ins.class == Class::B
}

// [pc, #offset]
fn is_off_pc(addr: AddrLdrStr) -> bool
    ensures { result ≡ is_off_pc addr }
{
    matches!(
        addr,
        AddrLdrStr::Pre {
            rn: PC,
            offset: LdrStrOffset::Imm(_),
            ..
        }
    )
}

// ldr *, [pc, #offset], not into PC
#[tactic(auto, using(classes::proofs::Numbers::same_class), unfolding(crate::specs::Predicates::is_pool_load))]
pub fn is_pool_load(ins: Ins) -> bool
    ensures { result ≡ is_pool_load ins }
{
    ins.class == Class::Ldr && is_off_pc(ins.addr) && ins.rd != PC
}

fn offset_of(addr: AddrLdrStr) -> i32
    ensures { result ≡ offset_of addr }
{
    match addr {
        AddrLdrStr::Pre {
            offset: LdrStrOffset::Imm(imm),
            ..
        }
        | AddrLdrStr::Post {
            offset: LdrStrOffset::Imm(imm),
            ..
        } => imm,
        _ => 0,
    }
}

// Where a pool load reads: the mask comes after the sum. A sum that leaves 32 bits names no address, and gives 0, which no code holds: one test, for
// a word there, refuses both.
#[tactic(auto, unfolding(crate::specs::Predicates::pool_address, crate::specs::Predicates::pool_from))]
pub fn pool_address(address: u32, ins: Ins) -> u32
    ensures { result ≡ pool_address address ins }
{
    match address.checked_add_signed(offset_of(ins.addr)) {
        Some(sum) if sum < 0xFFFF_FFF8 => sum / 4 * 4 + 8,
        _ => 0,
    }
}

// Function::is_function_call
#[tactic(auto, unfolding(crate::specs::Predicates::is_function_call))]
pub fn is_function_call(ins: Ins) -> Option<Mode>
    ensures { result ≡ is_function_call ins }
{
    match ins.class {
        Class::Bl => Some(Mode::Arm),
        Class::Blx1 => Some(Mode::Thumb),
        _ => None,
    }
}

// bx *
pub fn is_bx(ins: Ins) -> bool
    ensures { result ≡ is_bx ins }
{
    is_when(ins, Class::Bx, Cond::Al)
}

// mov pc, *
#[tactic(auto, unfolding(crate::specs::Predicates::is_mov_pc))]
fn is_mov_pc(ins: Ins) -> bool
    ensures { result ≡ is_mov_pc ins }
{
    is_data(ins, Class::Mov, Cond::Al, false) && ins.rd == PC
}

// ldmia *, {.., pc}
#[tactic(auto, unfolding(crate::specs::Predicates::is_ldm_pc))]
fn is_ldm_pc(ins: Ins) -> bool
    ensures { result ≡ is_ldm_pc ins }
{
    is_when(ins, Class::Ldm, Cond::Al) && ins.mode == LdmStmMode::Ia && has(ins.regs, PC)
}

// pop {.., pc}
#[tactic(auto, unfolding(crate::specs::Predicates::is_pop_pc))]
fn is_pop_pc(ins: Ins) -> bool
    ensures { result ≡ is_pop_pc ins }
{
    is_when(ins, Class::Pop, Cond::Al) && has(ins.regs, PC)
}

// a branch backwards, or to itself
#[tactic(auto, unfolding(crate::specs::Predicates::is_branch_back))]
fn is_branch_back(address: u32, ins: Ins) -> bool
    ensures { result ≡ is_branch_back address ins }
{
    is_when(ins, Class::B, Cond::Al) && ins.target <= address
}

// subs pc, lr, *
#[tactic(auto, unfolding(crate::specs::Predicates::is_subs_pc_lr))]
fn is_subs_pc_lr(ins: Ins) -> bool
    ensures { result ≡ is_subs_pc_lr ins }
{
    is_data(ins, Class::Sub, Cond::Al, true) && ins.rd == PC && ins.rn == LR
}

// ldr pc, *
#[tactic(auto, unfolding(crate::specs::Predicates::is_ldr_pc))]
fn is_ldr_pc(ins: Ins) -> bool
    ensures { result ≡ is_ldr_pc ins }
{
    is_when(ins, Class::Ldr, Cond::Al) && ins.rd == PC
}

// eor pc, *, *, ror *
#[tactic(auto, unfolding(crate::specs::Predicates::is_eor_pc))]
fn is_eor_pc(ins: Ins) -> bool
    ensures { result ≡ is_eor_pc ins }
{
    is_data(ins, Class::Eor, Cond::Al, false)
        && ins.rd == PC
        && matches!(
            ins.op2,
            Op2::ShiftReg {
                shift_op: ShiftOp::Ror,
                ..
            }
        )
}

// add pc, *, *, lsl #*, where the base is not PC: that one jumps into a table
#[tactic(auto, unfolding(crate::specs::Predicates::is_add_pc))]
fn is_add_pc(ins: Ins) -> bool
    ensures { result ≡ is_add_pc ins }
{
    is_data(ins, Class::Add, Cond::Al, false)
        && ins.rd == PC
        && matches!(
            ins.op2,
            Op2::ShiftImm { shift_op, .. } if is_lsl(shift_op)
        )
        && ins.rn != PC
}

#[tactic(auto, unfolding(crate::specs::Predicates::is_return_always))]
fn is_return_always(address: u32, ins: Ins) -> bool
    ensures { result ≡ is_return_always address ins }
{
    is_bx(ins)
        || is_mov_pc(ins)
        || is_ldm_pc(ins)
        || is_pop_pc(ins)
        || is_branch_back(address, ins)
        || is_subs_pc_lr(ins)
        || is_ldr_pc(ins)
        || is_eor_pc(ins)
        || is_add_pc(ins)
}

// adds r0, r0, #4
#[tactic(auto, unfolding(crate::specs::Predicates::is_adds_four))]
fn is_adds_four(ins: Ins) -> bool
    ensures { result ≡ is_adds_four ins }
{
    is_data(ins, Class::Add, Cond::Al, true)
        && ins.rd == 0
        && ins.rn == 0
        && matches!(ins.op2, Op2::Imm(4))
}

// adds r0, r0, #4 and then bne: the source takes this for a return
#[tactic(auto, unfolding(crate::specs::Predicates::is_return_after))]
fn is_return_after(ins: Ins, previous: Previous) -> bool
    ensures { result ≡ is_return_after ins previous }
{
    is_when(ins, Class::B, Cond::Ne) && previous.is_adds_four
}

#[tactic(auto, unfolding(crate::specs::Predicates::is_return))]
pub fn is_return(address: u32, ins: Ins, previous: Previous) -> bool
    ensures { result ≡ is_return address ins previous }
{
    if ins.is_conditional() {
        is_return_after(ins, previous)
    } else {
        is_return_always(address, ins)
    }
}

// mov rx, rx
#[tactic(auto, using(classes::proofs::Numbers::same_class), unfolding(crate::specs::Predicates::is_nop))]
pub fn is_nop(ins: Ins) -> bool
    ensures { result ≡ is_nop ins }
{
    ins.class == Class::Mov && !ins.s && is_register(ins.op2, ins.rd)
}

// A push, or a block store on SP.
#[tactic(auto, using(classes::proofs::Numbers::same_class), unfolding(crate::specs::Predicates::is_push))]
pub fn is_push(ins: Ins) -> bool
    ensures { result ≡ is_push ins }
{
    ins.class == Class::Push || ins.class == Class::Stm && ins.rn == SP
}

// [sp, #offset] without write-back
fn is_off_sp(addr: AddrLdrStr) -> bool
    ensures { result ≡ is_off_sp addr }
{
    matches!(
        addr,
        AddrLdrStr::Pre {
            rn: SP,
            offset: LdrStrOffset::Imm(_),
            writeback: false,
        }
    )
}

// str rd, [sp, #offset]
#[tactic(auto, using(classes::proofs::Numbers::same_class), unfolding(crate::specs::Predicates::is_stack_store))]
pub fn is_stack_store(ins: Ins) -> bool
    ensures { result ≡ is_stack_store ins }
{
    ins.class == Class::Str && is_off_sp(ins.addr)
}

// What is asked of an instruction once it is the previous one.
#[tactic(auto, unfolding(crate::specs::Predicates::as_previous))]
pub fn as_previous(ins: Ins) -> Previous
    ensures { result ≡ as_previous ins }
{
    Previous {
        is_branch: is_branch(ins),
        is_conditional: ins.is_conditional(),
        is_adds_four: is_adds_four(ins),
    }
}
