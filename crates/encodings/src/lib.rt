// The manual's instruction of a word.
#![tactic(auto)]

pub mod encoding;
