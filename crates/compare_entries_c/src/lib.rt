// The entries of compare_entries under their names in C, for the comparison with the Rust: each calls its namesake there
// and promises the same.
#![tactic(auto)]

pub mod of_message;
pub mod of_pacing;
pub mod of_timer;
