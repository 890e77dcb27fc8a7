// What holds of the rules after any calls: the promises made to the demands (specs/), and their proofs (the index is
// proofs/Theorems.antt). There is no code here.
#![tactic(auto)]
