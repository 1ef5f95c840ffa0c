// What a table's file tells of the table. This crate has no code: definitions in specs/, proofs in proofs/.
#![tactic(auto)]
