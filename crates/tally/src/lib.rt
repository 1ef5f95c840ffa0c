// How many words each class has. This crate has no code: definitions in specs/, proofs in proofs/.
#![tactic(auto)]
