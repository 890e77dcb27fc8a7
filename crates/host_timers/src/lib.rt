// The answers of the timers' calls as numbers, for a host in another language: document 01, "Timers". A refused call
// returns the timers it was given; a refused `new` returns zeros.
#![tactic(auto)]

ghost use Rattle.std.specs.Prelude.{◌≡◌};
ghost use Rattle.host_timers.specs.TimersAnswers.{told, nanoseconds, blanks, timers_set, timers_checked, next_message};

use rules_refusals::Refusal;
use rules_timers::Timers;

// The answer of a call that makes, sets or checks: the timers after it, and the periods elapsed, 0 for none.
#[repr(C)]
#[derive(Clone, Copy)]
pub struct TimersAnswer {
    pub refusal: u32,
    pub periods: u32,
    pub timers: Timers,
}

// Nanoseconds read from the timers.
#[repr(C)]
#[derive(Clone, Copy)]
pub struct NanosecondsAnswer {
    pub refusal: u32,
    pub nanoseconds: u64,
}

// The periods that a check found. It finds at least one, if any, so 0 can mean none.
pub fn told(elapsed: Option<u32>) -> u32
    ensures { result ≡ told elapsed }
{
    elapsed.unwrap_or(0)
}

impl From<Result<u64, Refusal>> for NanosecondsAnswer {
    ghost from_gives = { λ a r. r ≡ nanoseconds a };

    #[tactic(auto, unfolding(crate::specs::TimersAnswers::nanoseconds))]
    fn from(a: Result<u64, Refusal>) -> NanosecondsAnswer {
        match a {
            Ok(nanoseconds) => NanosecondsAnswer {
                refusal: 0,
                nanoseconds,
            },
            Err(refusal) => NanosecondsAnswer {
                refusal: refusals::number(refusal),
                nanoseconds: 0,
            },
        }
    }
}

// Functions, not `From`: a refused call's answer has the timers that were given.
#[tactic(auto, unfolding(crate::specs::TimersAnswers::timers_set))]
pub fn timers_set(before: Timers, a: Result<Timers, Refusal>) -> TimersAnswer
    ensures { result ≡ timers_set before a }
{
    match a {
        Ok(timers) => TimersAnswer {
            refusal: 0,
            periods: 0,
            timers,
        },
        Err(refusal) => TimersAnswer {
            refusal: refusals::number(refusal),
            periods: 0,
            timers: before,
        },
    }
}

#[tactic(auto, unfolding(crate::specs::TimersAnswers::timers_checked))]
pub fn timers_checked(before: Timers, a: Result<(Option<u32>, Timers), Refusal>) -> TimersAnswer
    ensures { result ≡ timers_checked before a }
{
    match a {
        Ok((elapsed, timers)) => TimersAnswer {
            refusal: 0,
            periods: told(elapsed),
            timers,
        },
        Err(refusal) => TimersAnswer {
            refusal: refusals::number(refusal),
            periods: 0,
            timers: before,
        },
    }
}

// The next message's time, if the host knows it. C has a flag and a number for it.
pub fn next_message(known: bool, time: u64) -> Option<u64>
    ensures { result ≡ next_message known time }
{
    known.then_some(time)
}

// Timers of zeros, for a refused `new`.
pub fn blanks() -> Timers
    ensures { result ≡ blanks }
{
    Timers::default()
}
