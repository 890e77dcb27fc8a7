// Document 01, "Refusal numbers", as types. The table, and the order of the tests, are in specs/.
#![tactic(auto)]

use rules_numbers::SeqNumber;

// The refusals in the order of their numbers, with only the values that document 01's table names.
#[derive(Clone, Copy, Debug, PartialEq, Eq)]
pub enum Refusal {
    BadSetting,
    BadStore,
    BadState,
    BadTime,
    TooLong,
    CountFull,
    BadNumber,
    BadRtt,
    Empty,
    InvalidAck {
        ack_number: SeqNumber,
        first: SeqNumber,
        next: SeqNumber,
    },
    StaleFullAck {
        received_full_ack: u32,
        next_full_ack: u64,
    },
    BadNak {
        index: u32,
    },
    NoRoom,
    NotHeld,
}
