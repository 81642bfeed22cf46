#![tactic(auto)]

// Names by their positions, and the first of them that has an earlier namesake. There is no code here: the definitions are in specs/, the theorems are in proofs/.
