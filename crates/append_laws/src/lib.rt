// An append keeps a table's order. This crate has no code: the statement in specs/, its proof in proofs/.
#![tactic(auto)]
