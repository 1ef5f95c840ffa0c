// The laws of one turn of the walk. This crate has no code: definitions in specs/, proofs in proofs/.
#![tactic(auto)]
