// The rules of document 01 as definitions, section by section, with figures and examples computed from them: specs/.
// There is no code. The crates above are proved to do what these definitions say, and the crate rules_theorems states
// what holds of them after any calls.
#![tactic(auto)]
