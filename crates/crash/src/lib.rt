// Demand 3, the second power cut: what a repair that power failures interrupt leaves on the disk. There is no code here: the model is in specs/, the
// theorems are in proofs/.
#![tactic(auto)]
