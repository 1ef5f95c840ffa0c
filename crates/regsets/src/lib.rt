// The registers that an instruction reads and writes.
#![tactic(auto)]

pub mod sets;
