// What holds of tags. This crate has no code: definitions in specs/, proofs in proofs/.
#![tactic(auto)]
