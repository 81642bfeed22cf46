#![tactic(auto)]

// The figures that document 01 marks to be proved. There is no code here: the table is in specs/, its one claim in proofs/.
