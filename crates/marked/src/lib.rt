// Document 01's marked runs. This crate has no code: the table in specs/, its proof in proofs/.
#![tactic(auto)]
