// What every whole walk comes to. This crate has no code: definitions in specs/, proofs in proofs/.
#![tactic(auto)]
