// Tables of branch instructions, by the compare and the jump before them (jump_table.rs, JumpTableStateArm and its record).
ghost use Rattle.std.specs.Prelude.{◌≡◌, ◌+◌, ◌*◌, ◌<◌, ◌^◌, SomeIff};
ghost use Rattle.analysis.specs.JumpTable.{jump_table, limit_in, is_zero_limit, is_jump, found, in_state};
ghost use Rattle.analysis.specs.JumpTable.{compared, jump_or_branch, signed_baseline, jump_at, valid_table, table_end};

use crate::pattern::{PC, is_data, is_scaled, is_when};
use arm::Ins;
use base::refusal::Refusal;
use classes::{Class, Cond, Op2};

// The fields of an `InlineTable`, as in the source; a type of its own keeps the two lists apart.
#[derive(Clone, Copy, PartialEq, Eq)]
pub struct JumpTable {
    pub address: u32,
    pub size: u32,
}

#[derive(Clone, Copy, PartialEq, Eq)]
pub enum JumpTableStateArm {
    CmpReg,
    JumpOrBranchSigned { index: u8, limit: u32 },
    SignedBaseline { index: u8, limit: u32 },
    JumpSigned { index: u8, limit: u32 },
    JumpAfterReturn { index: u8, limit: u32 },
    ValidJumpTable { table_address: u32, limit: u32 },
}

impl JumpTableStateArm {
    // The next state and the table to record, unless the table's size or end leaves 32 bits. An unconditional compare with a positive limit
    // starts from any state.
    #[tactic(auto, unfolding(crate::specs::JumpTable::jump_table, crate::specs::JumpTable::check_start))]
    pub fn handle(
        self,
        address: u32,
        ins: Ins,
    ) -> Result<(JumpTableStateArm, Option<JumpTable>), Refusal>
        ensures { result ≡ jump_table self address ins }
    {
        match limit(ins) {
            Some(limit) if 0 < limit => {
                let index = ins.rn;
                Ok((JumpTableStateArm::JumpOrBranchSigned { index, limit }, None))
            }
            _ => in_state(self, address, ins),
        }
    }

    #[tactic(auto, unfolding(crate::specs::JumpTable::end_of_entries))]
    pub fn table_end_address(self) -> Result<Option<u32>, Refusal>
        ensures { result ≡ table_end self }
    {
        let JumpTableStateArm::ValidJumpTable {
            table_address,
            limit,
        } = self
        else {
            return Ok(None);
        };
        let end = table_end(table_address, limit).ok_or(Refusal::Beyond32Bits)?;
        Ok(Some(end))
    }
}

fn in_state(
    state: JumpTableStateArm,
    address: u32,
    ins: Ins,
) -> Result<(JumpTableStateArm, Option<JumpTable>), Refusal>
    ensures { result ≡ in_state state address ins }
{
    match state {
        JumpTableStateArm::CmpReg => compare(ins),
        JumpTableStateArm::JumpOrBranchSigned { index, limit } => {
            jump_or_branch(index, limit, address, ins)
        }
        JumpTableStateArm::SignedBaseline { index, limit } => signed_baseline(index, limit, ins),
        JumpTableStateArm::JumpSigned { index, limit } => {
            jump_at(state, Cond::Ge, index, limit, address, ins)
        }
        JumpTableStateArm::JumpAfterReturn { index, limit } => {
            jump_at(state, Cond::Al, index, limit, address, ins)
        }
        JumpTableStateArm::ValidJumpTable {
            table_address,
            limit,
        } => valid_table(table_address, limit, address),
    }
}

// cmp index, #limit
fn limit(ins: Ins) -> Option<u32>
    ensures { result ≡ limit_in ins }
{
    match ins.op2 {
        Op2::Imm(limit) if is_when(ins, Class::Cmp, Cond::Al) => Some(limit),
        _ => None,
    }
}

#[tactic(auto, unfolding(crate::specs::JumpTable::compared))]
fn compare(ins: Ins) -> Result<(JumpTableStateArm, Option<JumpTable>), Refusal>
    ensures { result ≡ compared ins }
{
    let index = ins.rn;
    match limit(ins) {
        Some(limit) => Ok((JumpTableStateArm::JumpOrBranchSigned { index, limit }, None)),
        None => Ok((JumpTableStateArm::CmpReg, None)),
    }
}

// add pc, pc, index, lsl #2
#[tactic(auto, unfolding(crate::specs::JumpTable::is_jump))]
fn is_jump(ins: Ins, cond: Cond, index: u8) -> bool
    ensures { result ≡ is_jump ins cond index }
{
    is_data(ins, Class::Add, cond, false)
        && ins.rd == PC
        && ins.rn == PC
        && is_scaled(ins.op2, index)
}

// The end of a table of limit + 1 words.
fn table_end(address: u32, limit: u32) -> Option<u32>
    ensures { SomeIff result (address + (limit + 1) * 4 < 2 ^ 32) (address + (limit + 1) * 4) }
{
    limit.checked_add(1)?.checked_mul(4)?.checked_add(address)
}

// A table after the jump and the instruction that it skips.
#[tactic(auto, unfolding(crate::specs::JumpTable::found))]
fn found_at(address: u32, limit: u32) -> Result<(JumpTableStateArm, Option<JumpTable>), Refusal>
    ensures { result ≡ found address limit }
{
    let start = address.checked_add(8).ok_or(Refusal::Beyond32Bits)?;
    let end = table_end(start, limit).ok_or(Refusal::Beyond32Bits)?;
    let table = JumpTable {
        address: start,
        size: end - start,
    };
    let table_address = start;
    Ok((
        JumpTableStateArm::ValidJumpTable {
            table_address,
            limit,
        },
        Some(table),
    ))
}

#[tactic(auto, unfolding(crate::specs::JumpTable::jump_or_branch))]
fn jump_or_branch(
    index: u8,
    limit: u32,
    address: u32,
    ins: Ins,
) -> Result<(JumpTableStateArm, Option<JumpTable>), Refusal>
    ensures { result ≡ jump_or_branch index limit address ins }
{
    if is_jump(ins, Cond::Ls, index) {
        found_at(address, limit)
    } else if is_when(ins, Class::B, Cond::Gt) {
        Ok((JumpTableStateArm::SignedBaseline { index, limit }, None))
    } else if is_when(ins, Class::Pop, Cond::Hi) {
        Ok((JumpTableStateArm::JumpAfterReturn { index, limit }, None))
    } else if ins.updates_condition_flags {
        Ok((JumpTableStateArm::CmpReg, None))
    } else {
        Ok((JumpTableStateArm::JumpOrBranchSigned { index, limit }, None))
    }
}

#[tactic(auto, unfolding(crate::specs::JumpTable::signed_baseline))]
fn signed_baseline(
    index: u8,
    limit: u32,
    ins: Ins,
) -> Result<(JumpTableStateArm, Option<JumpTable>), Refusal>
    ensures { result ≡ signed_baseline index limit ins }
{
    if is_zero_compare(ins, index) {
        Ok((JumpTableStateArm::JumpSigned { index, limit }, None))
    } else {
        Ok((JumpTableStateArm::CmpReg, None))
    }
}

// cmp index, #0
#[tactic(auto, unfolding(crate::specs::JumpTable::is_zero_limit))]
fn is_zero_compare(ins: Ins, index: u8) -> bool
    ensures { result ≡ is_zero_limit ins index }
{
    limit(ins) == Some(0) && ins.rn == index
}

// The jump under its condition; else the state stays until the flags are set anew.
#[tactic(auto, unfolding(crate::specs::JumpTable::jump_at))]
fn jump_at(
    stay: JumpTableStateArm,
    cond: Cond,
    index: u8,
    limit: u32,
    address: u32,
    ins: Ins,
) -> Result<(JumpTableStateArm, Option<JumpTable>), Refusal>
    ensures { result ≡ jump_at stay cond index limit address ins }
{
    if is_jump(ins, cond, index) {
        found_at(address, limit)
    } else if ins.updates_condition_flags {
        Ok((JumpTableStateArm::CmpReg, None))
    } else {
        Ok((stay, None))
    }
}

// A table is current up to its last entry.
#[tactic(auto, unfolding(crate::specs::JumpTable::valid_table))]
fn valid_table(
    table_address: u32,
    limit: u32,
    address: u32,
) -> Result<(JumpTableStateArm, Option<JumpTable>), Refusal>
    ensures { result ≡ valid_table table_address limit address }
{
    // A wider sum, since it is only compared: nothing is refused here.
    let last = u64::from(table_address) + u64::from(limit) * 4;
    if last < u64::from(address) {
        Ok((JumpTableStateArm::CmpReg, None))
    } else {
        Ok((
            JumpTableStateArm::ValidJumpTable {
                table_address,
                limit,
            },
            None,
        ))
    }
}
