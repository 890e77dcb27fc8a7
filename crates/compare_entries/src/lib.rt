// Entries for parts that hosts don't call by themselves: message splitting, pacing and a single timer. They serve the
// comparison with the Rust, to which compare_entries_c exports them, and the replay of its stored answers. An answer is a
// struct of numbers, as those of the host entries are (host_structs, host_timers).
#![tactic(auto)]

pub mod of_message;
pub mod of_pacing;
pub mod of_timer;
