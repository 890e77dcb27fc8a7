// The arguments and the answer of an ACK, as numbers. A refused ACK returns the sender it was given; with 11 alone, the
// ACK's round-trip time replaces the sender's.
ghost use Rattle.std.specs.Prelude.{◌≡◌};
ghost use Rattle.host_structs.specs.Replies.{refused_of, action_of, ack_left, ack_of};

use crate::refused::Refused;
use crate::senders::FlatSender;
use buffer_ack::AckAction;
use rules_refusals::Refusal;
use sender::Sender;

// Packets acknowledged, how many of them were on the loss list, and the ACK's full number if `full` is true.
#[repr(C)]
#[derive(Clone, Copy, Default)]
pub struct AckAnswer {
    pub refusal: Refused,
    pub received: u32,
    pub recovered: u32,
    pub full: bool,
    pub full_number: u32,
    pub sender: FlatSender,
}

fn action_of(s: Sender, action: AckAction) -> AckAnswer
    ensures { result ≡ action_of s action }
{
    AckAnswer {
        refusal: Refused::default(),
        received: action.received,
        recovered: action.recovered,
        full: action.send_ack2.is_some(),
        full_number: action.send_ack2.unwrap_or(0),
        sender: FlatSender::from(s),
    }
}

// The sender after a refused ACK: a stale full ACK alone keeps a new round-trip time.
#[tactic(auto, unfolding(crate::specs::Replies::ack_left, crate::specs::Replies::refused_of))]
fn ack_left(given: FlatSender, s: Sender, why: Refusal) -> FlatSender
    ensures { result ≡ ack_left given s (refused_of why).number }
{
    match why {
        Refusal::StaleFullAck { .. } => FlatSender::from(s),
        _ => given,
    }
}

#[tactic(auto, unfolding(crate::specs::Replies::ack_of))]
pub fn ack_answer(given: FlatSender, a: Result<(Sender, AckAction), (Sender, Refusal)>) -> AckAnswer
    ensures { result ≡ ack_of given a }
{
    match a {
        Ok((s, action)) => action_of(s, action),
        Err((s, why)) => AckAnswer {
            refusal: Refused::from(why),
            sender: ack_left(given, s, why),
            ..Default::default()
        },
    }
}
