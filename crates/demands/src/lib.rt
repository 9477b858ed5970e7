// No function: what the owner reads stands in specs/, and its proofs in proofs/.
#![tactic(auto)]
