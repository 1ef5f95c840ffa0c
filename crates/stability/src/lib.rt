// The runs of the walk: a begin, then any list of steps and finishes. This crate has no code: definitions in specs/, proofs in proofs/.
#![tactic(auto)]
