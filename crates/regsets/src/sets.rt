// The registers that an instruction reads and writes, as sets with bit r for register r, and whether it sets condition flags. A set is a
// number, as it is printed.
ghost use Rattle.std.specs.Prelude.{◌≡◌, ◌<◌, ◌^◌, ◌%◌};
ghost use Rattle.regsets.specs.Sets.{form_of, uses_of, defs_of, flags_of};
ghost use Rattle.regsets.specs.Sets.{rn_set, rd_set, rs_set, rm_set, shifter_set, offset2_set, offset3_set};
ghost use Rattle.regsets.specs.Sets.{indexed_set, written_back_set, pair_set, status_source_set, coprocessor_result_set};
ghost use Rattle.regsets.specs.Sets.{restores, writes_flags};

use classes::fields::{self, bit};
use classes::{Class, Form};

const LR: u16 = 1 << 14;

const PC: u16 = 1 << 15;

// The one table from instructions to operands.
#[tactic(auto, unfolding(crate::specs::Sets::form_of))]
pub fn form(class: Class) -> Form
    ensures { result ≡ form_of class }
{
    match class {
        Class::Adc
        | Class::Add
        | Class::And
        | Class::Bic
        | Class::Eor
        | Class::Orr
        | Class::Rsb
        | Class::Rsc
        | Class::Sbc
        | Class::Sub => Form::Compute,
        Class::Cmn | Class::Cmp | Class::Teq | Class::Tst => Form::Compare,
        Class::Mov | Class::Mvn | Class::Lsl | Class::Lsr | Class::Asr | Class::Ror => Form::Move,
        Class::Mul | Class::Smulxy | Class::Smulwy => Form::Multiply,
        Class::Mla | Class::Smlaxy | Class::Smlawy => Form::MultiplyAdd,
        Class::Smull | Class::Umull => Form::MultiplyLong,
        Class::Smlal | Class::Umlal | Class::Smlalxy => Form::MultiplyAddLong,
        Class::Qadd | Class::Qdadd | Class::Qdsub | Class::Qsub => Form::Saturate,
        Class::Clz => Form::CountZeros,
        Class::B => Form::Branch,
        Class::Bl | Class::Blx1 => Form::BranchLink,
        Class::Bx => Form::BranchRegister,
        Class::Blx2 => Form::BranchLinkRegister,
        Class::Bkpt | Class::Swi => Form::Trap,
        Class::Ldr | Class::Ldrb | Class::Ldrbt | Class::Ldrt => Form::Load,
        Class::Str | Class::Strb | Class::Strbt | Class::Strt => Form::Store,
        Class::Pld => Form::Preload,
        Class::Ldrh | Class::Ldrsb | Class::Ldrsh => Form::LoadExtra,
        Class::Strh => Form::StoreExtra,
        Class::Ldrd => Form::LoadDouble,
        Class::Strd => Form::StoreDouble,
        Class::Ldm | Class::Pop => Form::LoadBlock,
        Class::Stm | Class::Push => Form::StoreBlock,
        Class::Swp | Class::Swpb => Form::Swap,
        Class::Mrs => Form::StatusRead,
        Class::Msr => Form::StatusWrite,
        Class::Ldc | Class::Stc => Form::CoprocessorTransfer,
        Class::Mcr => Form::ToCoprocessor,
        Class::Mrc => Form::FromCoprocessor,
        Class::Mcrr => Form::PairToCoprocessor,
        Class::Mrrc => Form::PairFromCoprocessor,
        Class::Cdp | Class::Illegal => Form::Nothing,
    }
}

// The set of one register; below, of the register that a field names.
fn one(register: u8) -> u16
    requires { register < 16 }
    ensures { result ≡ 2 ^ register }
{
    1 << register
}

fn rn(word: u32) -> u16
    ensures { result ≡ rn_set word }
{
    one(fields::rn(word))
}

pub fn rd(word: u32) -> u16
    ensures { result ≡ rd_set word }
{
    one(fields::rd(word))
}

fn rs(word: u32) -> u16
    ensures { result ≡ rs_set word }
{
    one(fields::rs(word))
}

fn rm(word: u32) -> u16
    ensures { result ≡ rm_set word }
{
    one(fields::rm(word))
}

// What addressing mode 1 reads.
#[tactic(auto, unfolding(crate::specs::Sets::shifter_set))]
fn shifter(word: u32) -> u16
    ensures { result ≡ shifter_set word }
{
    if bit(word, 25) {
        0
    } else if bit(word, 4) {
        rm(word) | rs(word)
    } else {
        rm(word)
    }
}

// What the offset of addressing mode 2 reads, and of mode 3. Each of these has a bit and a definition of its own.
#[tactic(auto, unfolding(crate::specs::Sets::offset2_set))]
fn offset2(word: u32) -> u16
    ensures { result ≡ offset2_set word }
{
    if bit(word, 25) { rm(word) } else { 0 }
}

#[tactic(auto, unfolding(crate::specs::Sets::offset3_set))]
fn offset3(word: u32) -> u16
    ensures { result ≡ offset3_set word }
{
    if bit(word, 22) { 0 } else { rm(word) }
}

// The base, where W writes it back; in modes 2 and 3 post-indexing writes it too.
#[tactic(auto, unfolding(crate::specs::Sets::written_back_set))]
fn written_back(word: u32) -> u16
    ensures { result ≡ written_back_set word }
{
    if bit(word, 21) { rn(word) } else { 0 }
}

#[tactic(auto, unfolding(crate::specs::Sets::indexed_set))]
fn indexed(word: u32) -> u16
    ensures { result ≡ indexed_set word }
{
    if bit(word, 24) {
        written_back(word)
    } else {
        rn(word)
    }
}

// An even register and the odd one after it.
fn pair(word: u32) -> u16
    ensures { result ≡ pair_set word }
{
    let register = fields::rd(word);
    one(register) | one(register / 2 * 2 + 1)
}

// MSR reads Rm unless it has an immediate.
#[tactic(auto, unfolding(crate::specs::Sets::status_source_set))]
fn status_source(word: u32) -> u16
    ensures { result ≡ status_source_set word }
{
    if bit(word, 25) { 0 } else { rm(word) }
}

// MRC to R15 writes the condition flags instead.
#[tactic(auto, unfolding(crate::specs::Sets::coprocessor_result_set))]
fn coprocessor_result(word: u32) -> u16
    ensures { result ≡ coprocessor_result_set word }
{
    if fields::rd(word) == 15 { 0 } else { rd(word) }
}

// The list of a block transfer.
pub fn list(word: u32) -> u16
    ensures { result ≡ word % 2 ^ 16 }
{
    (word & 0xFFFF) as u16
}

#[tactic(auto, unfolding(crate::specs::Sets::uses_of))]
pub fn uses(form: Form, word: u32) -> u16
    ensures { result ≡ uses_of form word }
{
    match form {
        Form::Compute | Form::Compare => rn(word) | shifter(word),
        Form::Move => shifter(word),
        Form::Multiply | Form::MultiplyLong => rm(word) | rs(word),
        Form::MultiplyAdd => rm(word) | rs(word) | rd(word),
        Form::MultiplyAddLong => rm(word) | rs(word) | rd(word) | rn(word),
        Form::Saturate | Form::Swap => rm(word) | rn(word),
        Form::CountZeros | Form::BranchRegister | Form::BranchLinkRegister => rm(word),
        Form::Branch | Form::BranchLink => PC,
        Form::Load | Form::Preload => rn(word) | offset2(word),
        Form::Store => rd(word) | rn(word) | offset2(word),
        Form::LoadExtra | Form::LoadDouble => rn(word) | offset3(word),
        Form::StoreExtra => rd(word) | rn(word) | offset3(word),
        Form::StoreDouble => pair(word) | rn(word) | offset3(word),
        Form::LoadBlock | Form::CoprocessorTransfer => rn(word),
        Form::StoreBlock => list(word) | rn(word),
        Form::StatusWrite => status_source(word),
        Form::ToCoprocessor => rd(word),
        Form::PairToCoprocessor => rd(word) | rn(word),
        Form::Trap
        | Form::StatusRead
        | Form::FromCoprocessor
        | Form::PairFromCoprocessor
        | Form::Nothing => 0,
    }
}

#[tactic(auto, unfolding(crate::specs::Sets::defs_of))]
pub fn defs(form: Form, word: u32) -> u16
    ensures { result ≡ defs_of form word }
{
    match form {
        Form::Compute
        | Form::Move
        | Form::Saturate
        | Form::CountZeros
        | Form::Swap
        | Form::StatusRead => rd(word),
        Form::Multiply | Form::MultiplyAdd => rn(word),
        Form::MultiplyLong | Form::MultiplyAddLong | Form::PairFromCoprocessor => rd(word)
            | rn(word),
        Form::Branch | Form::BranchRegister | Form::Trap => PC,
        Form::BranchLink | Form::BranchLinkRegister => LR | PC,
        Form::Load | Form::LoadExtra => rd(word) | indexed(word),
        Form::LoadDouble => pair(word) | indexed(word),
        Form::Store | Form::StoreExtra | Form::StoreDouble => indexed(word),
        Form::LoadBlock => list(word) | written_back(word),
        Form::StoreBlock | Form::CoprocessorTransfer => written_back(word),
        Form::FromCoprocessor => coprocessor_result(word),
        Form::Compare
        | Form::Preload
        | Form::StatusWrite
        | Form::ToCoprocessor
        | Form::PairToCoprocessor
        | Form::Nothing => 0,
    }
}

// LDM with S and PC in its list.
#[tactic(auto, unfolding(crate::specs::Sets::restores))]
fn restores_status(word: u32) -> bool
    ensures { result ≡ restores word }
{
    bit(word, 22) && bit(word, 15)
}

// MSR to the CPSR and not the SPSR, with the flag byte in its field mask.
#[tactic(auto, unfolding(crate::specs::Sets::writes_flags))]
fn writes_flags(word: u32) -> bool
    ensures { result ≡ writes_flags word }
{
    !bit(word, 22) && bit(word, 19)
}

#[tactic(auto, unfolding(crate::specs::Sets::flags_of))]
pub fn updates_condition_flags(form: Form, word: u32) -> bool
    ensures { result ≡ flags_of form word }
{
    match form {
        Form::Compute
        | Form::Move
        | Form::Multiply
        | Form::MultiplyAdd
        | Form::MultiplyLong
        | Form::MultiplyAddLong => bit(word, 20),
        Form::Compare => true,
        Form::LoadBlock => restores_status(word),
        Form::StatusWrite => writes_flags(word),
        Form::FromCoprocessor => fields::rd(word) == 15,
        _ => false,
    }
}
