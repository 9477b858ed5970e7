// No function: document 01 as tables stands in specs/, and that the calls do what the tables say in proofs/.
#![tactic(auto)]
