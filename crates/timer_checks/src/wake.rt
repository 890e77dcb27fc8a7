// When the host must wake: document 01, "Timers"; the Rust's `next_timer` in time/mod.rs.
ghost use Rattle.std.specs.Prelude.{◌≡◌};
ghost use Rattle.timer.specs.Laws.{Kept};
ghost use Rattle.timers.specs.Laws.{KeptAll};
ghost use Rattle.rules_timers.specs.Wake.{sooner, message_or, wake, too_late, judge_next, next_timer};

use rules_refusals::Refusal;
use rules_timers::{INSTANT_LIMIT, Timer, Timers};

// The next instant of a timer, if it counts and is sooner than `instant`. A flag: the timer is at hand, and an `Option`
// would have to be made of both.
fn sooner(on: bool, t: Timer, instant: u64) -> u64
    requires { Kept t }
    ensures { result ≡ sooner on t instant }
{
    if on {
        (t.last + t.period).min(instant)
    } else {
        instant
    }
}

fn message_or(message: Option<u64>, instant: u64) -> u64
    ensures { result ≡ message_or message instant }
{
    message.unwrap_or(instant).min(instant)
}

#[tactic(auto, unfolding(rules_timers::specs::Wake::wake))]
fn wake(timers: Timers, now: u64, packets: bool, message: Option<u64>, unacked: u32) -> u64
    requires { KeptAll timers }
    ensures { result ≡ wake timers now packets message unacked }
{
    let instant = sooner(true, timers.exp, timers.nak.last + timers.nak.period);
    let instant = message_or(message, instant);
    let instant = sooner(0 < unacked, timers.full_ack, instant);
    let instant = sooner(packets, timers.snd, instant);
    now.max(instant)
}

fn too_late(message: Option<u64>) -> bool
    ensures { result ≡ too_late message }
{
    message.is_some_and(|time| INSTANT_LIMIT <= time)
}

#[tactic(auto, unfolding(rules_timers::specs::Wake::judge_next))]
fn judge_next(timers: Timers, now: u64, message: Option<u64>) -> Result<(), Refusal>
    ensures { result ≡ judge_next timers now message }
{
    if !timers::kept(timers) {
        return Err(Refusal::BadState);
    }
    if INSTANT_LIMIT <= now || too_late(message) {
        return Err(Refusal::BadTime);
    }
    Ok(())
}

// The latest time by which the host must wake. As in the Rust, a due resend wakes it only through EXP or NAK.
#[tactic(auto, unfolding(rules_timers::specs::Wake::next_timer))]
pub fn next_timer(
    timers: Timers,
    now: u64,
    has_packets_to_send: bool,
    next_message: Option<u64>,
    unacked_packets: u32,
) -> Result<u64, Refusal>
    ensures { result ≡ next_timer timers now has_packets_to_send next_message unacked_packets }
{
    judge_next(timers, now, next_message)?;
    Ok(wake(
        timers,
        now,
        has_packets_to_send,
        next_message,
        unacked_packets,
    ))
}
