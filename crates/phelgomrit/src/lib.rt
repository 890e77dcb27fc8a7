// The product's calls as a host makes them. Each takes any numbers and any lent areas, always returns an answer, and has
// no `requires`. phelgomrit_c exports them to C, and include/phelgomrit.h wraps them in the form that a C programmer expects.
#![tactic(auto)]

pub mod of_packet;
pub mod of_sender;
pub mod of_timers;
