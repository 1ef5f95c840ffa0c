// check_defs_uses: registers that an instruction reads must have been defined.
ghost use Rattle.std.specs.Prelude.{◌≡◌};
ghost use Rattle.registers.specs.Registers.{register_of};
ghost use Rattle.walk.specs.Checking.{is_checked, defined_before, undefined_register, defined_by, defined_after};

use arm::Ins;

#[tactic(auto, unfolding(crate::specs::Checking::is_checked))]
fn is_checked(check: bool, ins: Ins) -> bool
    ensures { result ≡ is_checked check ins }
{
    check && !predicates::is_nop(ins)
}

// A push first defines its list.
#[tactic(auto, unfolding(crate::specs::Checking::defined_before))]
fn defined_before(defined: u16, ins: Ins) -> u16
    ensures { result ≡ defined_before defined ins }
{
    if predicates::is_push(ins) {
        defined | ins.regs
    } else {
        defined
    }
}

// The lowest register that is read and not defined. A store on the stack is not looked at.
#[tactic(auto, unfolding(crate::specs::Checking::undefined_register))]
pub fn undefined_register(check: bool, defined: u16, ins: Ins) -> Option<u8>
    ensures { result ≡ register_of (undefined_register check defined ins) }
{
    if is_checked(check, ins) && !predicates::is_stack_store(ins) {
        registers::lowest_missing(ins.uses, defined_before(defined, ins))
    } else {
        None
    }
}

// A store on the stack defines the register that it stores.
#[tactic(auto, unfolding(crate::specs::Checking::defined_by))]
fn defined_by(defined: u16, ins: Ins) -> u16
    ensures { result ≡ defined_by defined ins }
{
    if predicates::is_stack_store(ins) {
        defined | registers::only(ins.rd)
    } else {
        defined
    }
}

// What is no return defines what it writes.
#[tactic(auto, unfolding(crate::specs::Checking::defined_after))]
pub fn defined_after(check: bool, defined: u16, ins: Ins, is_return: bool) -> u16
    ensures { result ≡ defined_after check defined ins is_return }
{
    if !is_checked(check, ins) {
        return defined;
    }
    let set = defined_by(defined_before(defined, ins), ins);
    if is_return { set } else { set | ins.defs }
}
