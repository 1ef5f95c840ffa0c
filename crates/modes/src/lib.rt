// Operands, by the manual's addressing modes (chapter A5).
#![tactic(auto)]

pub mod immediate;
pub mod offset;
pub mod operands;
