// Live pacing by itself. Its kept state is passed as it is in a host's sender (`FlatPacing`).
ghost use Rattle.std.specs.Prelude.{◌≡◌};
ghost use Rattle.compare_entries.specs.PacingAnswers.{fresh, pacing_made, pacing_paced, pacing_new, pacing_on_input};

use host_structs::pacings::{FlatPacing, mode_of};
use rules_pacing::SenderCongestionControl;
use rules_refusals::Refusal;

// Pacing after the call, and the new period in microseconds; 0 means none, since a period is at least 1.
#[repr(C)]
#[derive(Clone, Copy)]
pub struct PacingAnswer {
    pub refusal: u32,
    pub period: u64,
    pub pacing: FlatPacing,
}

// Functions, not `From`: what was given is in the answer to a refused call.
#[tactic(auto, unfolding(crate::specs::PacingAnswers::pacing_made))]
fn made(given: FlatPacing, a: Result<SenderCongestionControl, Refusal>) -> PacingAnswer
    ensures { result ≡ pacing_made given a }
{
    match a {
        Ok(c) => PacingAnswer {
            refusal: 0,
            period: 0,
            pacing: FlatPacing::from(c),
        },
        Err(refusal) => PacingAnswer {
            refusal: refusals::number(refusal),
            period: 0,
            pacing: given,
        },
    }
}

#[tactic(auto, unfolding(crate::specs::PacingAnswers::pacing_paced))]
fn paced(
    given: FlatPacing,
    a: Result<(Option<u64>, SenderCongestionControl), Refusal>,
) -> PacingAnswer
    ensures { result ≡ pacing_paced given a }
{
    match a {
        Ok((period, c)) => PacingAnswer {
            refusal: 0,
            period: period.unwrap_or(0),
            pacing: FlatPacing::from(c),
        },
        Err(refusal) => PacingAnswer {
            refusal: refusals::number(refusal),
            period: 0,
            pacing: given,
        },
    }
}

fn fresh(mode: u32, rate: u64, overhead: u64) -> FlatPacing
    ensures { result ≡ fresh mode rate overhead }
{
    FlatPacing {
        mode,
        rate,
        overhead,
        ..Default::default()
    }
}

// Pacing of a new sender.
#[tactic(auto, unfolding(crate::specs::PacingAnswers::pacing_new))]
pub fn compare_pacing_new(mode: u32, rate: u64, overhead: u64) -> PacingAnswer
    ensures { result ≡ pacing_new mode rate overhead }
{
    let given = fresh(mode, rate, overhead);
    made(given, pacing::new(mode_of(mode, rate, overhead)))
}

// Packets and payload bytes that come in at `now`.
#[tactic(auto, unfolding(crate::specs::PacingAnswers::pacing_on_input))]
pub fn compare_pacing_on_input(
    pacing: FlatPacing,
    now: u64,
    packets: u64,
    bytes: u64,
) -> PacingAnswer
    ensures { result ≡ pacing_on_input pacing now packets bytes }
{
    paced(
        pacing,
        pacing::on_input(SenderCongestionControl::from(pacing), now, packets, bytes),
    )
}
