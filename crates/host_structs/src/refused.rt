// Why a call is refused, as numbers: document 01, "Refusal numbers".
ghost use Rattle.std.specs.Prelude.{◌≡◌};
ghost use Rattle.host_structs.specs.Replies.{refused_of};

use rules_refusals::Refusal;

// The refusal's number, 0 if the call is accepted, and the values that document 01's table names, in its order: for 10
// the ACK's number, the front and next unsent, for 11 the full number and the expected one, for 12 the word's index.
// All other fields are 0.
#[repr(C)]
#[derive(Clone, Copy, Default)]
pub struct Refused {
    pub number: u32,
    pub first: u64,
    pub second: u64,
    pub third: u64,
}

impl From<Refusal> for Refused {
    ghost from_gives = { λ r f. f ≡ refused_of r };

    #[tactic(auto, unfolding(crate::specs::Replies::refused_of))]
    fn from(r: Refusal) -> Refused {
        let number = refusals::number(r);
        match r {
            Refusal::InvalidAck {
                ack_number,
                first,
                next,
            } => Refused {
                number,
                first: ack_number.0 as u64,
                second: first.0 as u64,
                third: next.0 as u64,
            },
            Refusal::StaleFullAck {
                received_full_ack,
                next_full_ack,
            } => Refused {
                number,
                first: received_full_ack as u64,
                second: next_full_ack,
                third: 0,
            },
            Refusal::BadNak { index } => Refused {
                number,
                first: index as u64,
                ..Default::default()
            },
            _ => Refused {
                number,
                ..Default::default()
            },
        }
    }
}
