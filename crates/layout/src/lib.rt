#![tactic(auto)]

// The hive that is made of a forest, cell by cell. There is no code here: the definitions are in specs/, the theorems are in proofs/.
