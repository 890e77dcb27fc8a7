// What a host links: the entries of phelgomrit under their names in C, each of which calls its namesake there and promises
// the same. include/phelgomrit.h wraps them in the form that a C programmer expects.
#![tactic(auto)]

pub mod of_packet;
pub mod of_sender;
pub mod of_timers;
