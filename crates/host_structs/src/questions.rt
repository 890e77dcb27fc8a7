// The answers of `payload` and `reports` as numbers. These calls change nothing.
ghost use Rattle.std.specs.Prelude.{◌≡◌};
ghost use Rattle.host_structs.specs.Replies.{payload_of, reports_of};

use crate::refused::Refused;
use payload::Lies;
use reports::BufferReports;
use rules_refusals::Refusal;

// Where a payload starts in the store, and its length.
#[repr(C)]
#[derive(Clone, Copy, Default)]
pub struct PayloadAnswer {
    pub refusal: Refused,
    pub place: usize,
    pub len: usize,
}

// The reports: flushed, has packets to send, buffered packets, bytes, and time in microseconds.
#[repr(C)]
#[derive(Clone, Copy, Default)]
pub struct ReportsAnswer {
    pub refusal: Refused,
    pub is_flushed: bool,
    pub has_packets_to_send: bool,
    pub len: usize,
    pub len_bytes: u64,
    pub duration: u64,
}

impl From<Result<Lies, Refusal>> for PayloadAnswer {
    ghost from_gives = { λ a answer. answer ≡ payload_of a };

    #[tactic(auto, unfolding(crate::specs::Replies::payload_of))]
    fn from(a: Result<Lies, Refusal>) -> PayloadAnswer {
        match a {
            Ok(lies) => PayloadAnswer {
                refusal: Refused::default(),
                place: lies.place,
                len: lies.len,
            },
            Err(why) => PayloadAnswer {
                refusal: Refused::from(why),
                ..Default::default()
            },
        }
    }
}

impl From<Result<BufferReports, Refusal>> for ReportsAnswer {
    ghost from_gives = { λ a answer. answer ≡ reports_of a };

    #[tactic(auto, unfolding(crate::specs::Replies::reports_of))]
    fn from(a: Result<BufferReports, Refusal>) -> ReportsAnswer {
        match a {
            Ok(told) => ReportsAnswer {
                refusal: Refused::default(),
                is_flushed: told.is_flushed,
                has_packets_to_send: told.has_packets_to_send,
                len: told.len,
                len_bytes: told.len_bytes,
                duration: told.duration,
            },
            Err(why) => ReportsAnswer {
                refusal: Refused::from(why),
                ..Default::default()
            },
        }
    }
}
