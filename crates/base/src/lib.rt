// What the walk's crates share: refusals by name, and the words of a module's code.
#![tactic(auto)]

pub mod refusal;
pub mod word;
