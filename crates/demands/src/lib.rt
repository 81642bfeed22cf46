#![tactic(auto)]

// The customer's three demands, the uniqueness of every promise, and the five frauds. There is no code here: the statements are in specs/, their proofs
// in proofs/.
