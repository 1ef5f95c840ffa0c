// Data tables inside a function, by the two instructions that read one (inline_table.rs).
ghost use Rattle.std.specs.Prelude.{◌≡◌};
ghost use Rattle.analysis.specs.InlineTable.{inline_table, sub_pc_of, table_address, is_table_load, table_made, table_of, ahead_of};

use crate::pattern::{PC, by_lsr, is_data, is_pre, is_when};
use arm::Ins;
use base::refusal::Refusal;
use classes::{Class, Cond, Op2};

#[derive(Clone, Copy, PartialEq, Eq)]
pub struct InlineTable {
    pub address: u32,
    pub size: u32,
}

#[derive(Clone, Copy, PartialEq, Eq)]
pub enum InlineTableState {
    Start,
    SubPc {
        table_base: u8,
        table_address: u32,
        size: u32,
    },
    ValidTable(InlineTable),
}

impl InlineTableState {
    // The next state, unless a table's address or end leaves 32 bits.
    pub fn handle(self, thumb: bool, address: u32, ins: Ins) -> Result<InlineTableState, Refusal>
        ensures { result ≡ inline_table self thumb address ins }
    {
        match self {
            InlineTableState::Start => start(thumb, address, ins),
            InlineTableState::SubPc {
                table_base,
                table_address,
                size,
            } if is_table_load(ins, table_base) => table_made(table_address, size),
            _ => Ok(InlineTableState::Start),
        }
    }

    pub fn get_table(self) -> Option<InlineTable>
        ensures { result ≡ table_of self }
    {
        match self {
            InlineTableState::ValidTable(table) => Some(table),
            _ => None,
        }
    }
}

// sub table_base, pc, #offset
#[tactic(auto, unfolding(crate::specs::InlineTable::sub_pc_of, crate::specs::InlineTable::sub_from))]
fn start(thumb: bool, address: u32, ins: Ins) -> Result<InlineTableState, Refusal>
    ensures { result ≡ sub_pc_of thumb address ins }
{
    match ins.op2 {
        Op2::Imm(offset) if is_data(ins, Class::Sub, Cond::Al, false) && ins.rn == PC => {
            table_address(thumb, address, ins.rd, offset)
        }
        _ => Ok(InlineTableState::Start),
    }
}

#[tactic(auto, unfolding(crate::specs::InlineTable::table_address))]
fn table_address(
    thumb: bool,
    address: u32,
    rd: u8,
    offset: u32,
) -> Result<InlineTableState, Refusal>
    ensures { result ≡ table_address thumb address rd offset }
{
    let ahead = ahead(thumb);
    let table = if offset <= ahead {
        address.checked_add(ahead - offset)
    } else {
        address.checked_sub(offset - ahead)
    };
    Ok(InlineTableState::SubPc {
        table_base: rd,
        table_address: table.ok_or(Refusal::Beyond32Bits)?,
        size: 0x100,
    })
}

// How far a table that PC less 0 names lies ahead: 0x100, and what PC reads as past the instruction.
fn ahead(thumb: bool) -> u32
    ensures { result ≡ ahead_of thumb }
{
    if thumb { 0x104 } else { 0x108 }
}

// ldrb *, [table_base, r* lsr #*]
#[tactic(auto, unfolding(crate::specs::InlineTable::is_table_load))]
fn is_table_load(ins: Ins, table_base: u8) -> bool
    ensures { result ≡ is_table_load ins table_base }
{
    is_when(ins, Class::Ldrb, Cond::Al) && is_pre(ins.addr, table_base) && by_lsr(ins.addr)
}

#[tactic(auto, unfolding(crate::specs::InlineTable::table_made))]
fn table_made(address: u32, size: u32) -> Result<InlineTableState, Refusal>
    ensures { result ≡ table_made address size }
{
    address.checked_add(size).ok_or(Refusal::Beyond32Bits)?;
    Ok(InlineTableState::ValidTable(InlineTable { address, size }))
}
