#![tactic(auto)]

// A stream of frames as a forest of keys, and what is wrong with a stream. There is no code here: the definitions are in specs/, the theorems are in proofs/.
