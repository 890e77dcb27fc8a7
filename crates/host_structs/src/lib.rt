// What a host in another language keeps and receives: a sender's kept fields, and the answers of the calls, as numbers.
// An enum can't be passed to C, so each of its cases has a number; document 01's "every other kept field in the range
// given here" forbids any other (docs/BOOKS.md).
//   senders, pacings                     what is kept
//   refused                              why a call is refused
//   starts, replies, acks, questions     the answers of new; message, nak, run; ack; payload, reports
#![tactic(auto)]

pub mod acks;
pub mod pacings;
pub mod questions;
pub mod refused;
pub mod replies;
pub mod senders;
pub mod starts;
