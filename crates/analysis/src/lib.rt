// The leaf machines of the function walk, as in ds-decomp: each looks at one instruction after another and knows only its own state.
#![tactic(auto)]

pub mod function_branch;
pub mod illegal_code;
pub mod inline_table;
pub mod jump_table;
pub mod pattern;
