#![tactic(auto)]

// What a built hive is, proved: each of its records is read back by the definitions of records, values and security, the check accepts it, and its export is the
// stream that it was built from. There is no code here: the theorems are in proofs/.
