// The answer of `new` as numbers.
ghost use Rattle.std.specs.Prelude.{◌≡◌};
ghost use Rattle.host_structs.specs.Replies.{new_of};

use crate::refused::Refused;
use crate::senders::FlatSender;
use rules_refusals::Refusal;
use sender::Sender;

// The new sender; all zeros if the call is refused.
#[repr(C)]
#[derive(Clone, Copy)]
pub struct NewAnswer {
    pub refusal: Refused,
    pub sender: FlatSender,
}

impl From<Result<Sender, Refusal>> for NewAnswer {
    ghost from_gives = { λ a answer. answer ≡ new_of a };

    #[tactic(auto, unfolding(crate::specs::Replies::new_of))]
    fn from(a: Result<Sender, Refusal>) -> NewAnswer {
        match a {
            Ok(s) => NewAnswer {
                refusal: Refused::default(),
                sender: FlatSender::from(s),
            },
            Err(why) => NewAnswer {
                refusal: Refused::from(why),
                sender: FlatSender::default(),
            },
        }
    }
}
