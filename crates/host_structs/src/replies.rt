// The answers of `message`, `nak` and `run` as numbers: the refusal, the results, and the sender to keep from then on.
// A refused call returns the sender it was given: so these are functions, not `From`, one for each
// of C's structs.
ghost use Rattle.std.specs.Prelude.{◌≡◌};
ghost use Rattle.host_structs.specs.Replies.{message_of, nak_of, run_of};

use crate::refused::Refused;
use crate::senders::FlatSender;
use rules_refusals::Refusal;
use sender::{Answer, Sender};

// Packets made, packets removed, wire bytes removed, and the new period in microseconds; 0 means none, since a period
// is at least 1.
#[repr(C)]
#[derive(Clone, Copy, Default)]
pub struct MessageAnswer {
    pub refusal: Refused,
    pub made: usize,
    pub removed: usize,
    pub bytes: u64,
    pub period: u64,
    pub sender: FlatSender,
}

// How many runs the lent list holds.
#[repr(C)]
#[derive(Clone, Copy)]
pub struct NakAnswer {
    pub refusal: Refused,
    pub runs: usize,
    pub sender: FlatSender,
}

// How many records were written, and the budget left.
#[repr(C)]
#[derive(Clone, Copy)]
pub struct RunAnswer {
    pub refusal: Refused,
    pub records: usize,
    pub left: u32,
    pub sender: FlatSender,
}

#[tactic(auto, unfolding(crate::specs::Replies::message_of))]
pub fn message_answer(given: FlatSender, a: Result<(Sender, Answer), Refusal>) -> MessageAnswer
    ensures { result ≡ message_of given a }
{
    match a {
        Ok((s, answer)) => MessageAnswer {
            refusal: Refused::default(),
            made: answer.made,
            removed: answer.removed,
            bytes: answer.bytes,
            period: answer.period.unwrap_or(0),
            sender: FlatSender::from(s),
        },
        Err(why) => MessageAnswer {
            refusal: Refused::from(why),
            sender: given,
            ..Default::default()
        },
    }
}

#[tactic(auto, unfolding(crate::specs::Replies::nak_of))]
pub fn nak_answer(given: FlatSender, a: Result<(Sender, usize), Refusal>) -> NakAnswer
    ensures { result ≡ nak_of given a }
{
    match a {
        Ok((s, runs)) => NakAnswer {
            refusal: Refused::default(),
            runs,
            sender: FlatSender::from(s),
        },
        Err(why) => NakAnswer {
            refusal: Refused::from(why),
            runs: 0,
            sender: given,
        },
    }
}

#[tactic(auto, unfolding(crate::specs::Replies::run_of))]
pub fn run_answer(given: FlatSender, a: Result<(Sender, usize, u32), Refusal>) -> RunAnswer
    ensures { result ≡ run_of given a }
{
    match a {
        Ok((s, records, left)) => RunAnswer {
            refusal: Refused::default(),
            records,
            left,
            sender: FlatSender::from(s),
        },
        Err(why) => RunAnswer {
            refusal: Refused::from(why),
            records: 0,
            left: 0,
            sender: given,
        },
    }
}
