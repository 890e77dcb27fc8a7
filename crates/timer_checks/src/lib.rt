// Checking a timer: document 01, "Timers"; the Rust's `check_snd` and the like in time/mod.rs, and the idle timer,
// which depends on EXP. When the host must wake is in `wake`. Times are nanoseconds.
#![tactic(auto)]

ghost use Rattle.std.specs.Prelude.{◌≡◌};
ghost use Rattle.std.specs.Borrow.{sem};
ghost use Rattle.timer_checks.specs.Lending.{LendsTimer};
ghost use Rattle.rules_timers.specs.Checks.{timer_of, check, check_snd, check_full_ack, check_nak, check_statistics, heard, idle_after, idle, check_peer_idle_timeout};

use rules_refusals::Refusal;
use rules_timers::{Timer, Timers, Which};

pub mod wake;

// The idle timer is reported only if EXP's count is over this.
const EXP_MAX: u32 = 16;

// The timer that a check concerns.
fn timer_mut(timers: &mut Timers, which: Which) -> &mut Timer
    ensures value { result.now ≡ timer_of which timers.old }
    ensures* writes_back { sem 𝓛 (LendsTimer timers.entry which result) }
{
    match which {
        Which::Snd => &mut timers.snd,
        Which::FullAck => &mut timers.full_ack,
        Which::Nak => &mut timers.nak,
        Which::Statistics => &mut timers.statistics,
    }
}

#[tactic(auto, unfolding(rules_timers::specs::Checks::check))]
fn check(timers: Timers, which: Which, now: u64) -> Result<(Option<u32>, Timers), Refusal>
    ensures { result ≡ check which timers now }
{
    timers::judge(timers, now)?;
    let mut after = timers;
    let timer = timer_mut(&mut after, which);
    let t = timer::tick(*timer, now);
    *timer = t.timer;
    Ok((t.elapsed, after))
}

// Four checks by name, not one with a public `Which`: the README and docs promise each.
pub fn check_snd(timers: Timers, now: u64) -> Result<(Option<u32>, Timers), Refusal>
    ensures { result ≡ check_snd timers now }
{
    check(timers, Which::Snd, now)
}

pub fn check_full_ack(timers: Timers, now: u64) -> Result<(Option<u32>, Timers), Refusal>
    ensures { result ≡ check_full_ack timers now }
{
    check(timers, Which::FullAck, now)
}

pub fn check_nak(timers: Timers, now: u64) -> Result<(Option<u32>, Timers), Refusal>
    ensures { result ≡ check_nak timers now }
{
    check(timers, Which::Nak, now)
}

pub fn check_statistics(timers: Timers, now: u64) -> Result<(Option<u32>, Timers), Refusal>
    ensures { result ≡ check_statistics timers now }
{
    check(timers, Which::Statistics, now)
}

// Whether the idle timer is reported: it has expired, and EXP often enough.
fn heard(elapsed: Option<u32>, often: bool) -> bool
    ensures { result ≡ heard elapsed often }
{
    elapsed.is_some() && often
}

// After EXP has expired and become `exp`: the idle timer is checked, and moves on even if it isn't reported. Then EXP's
// count goes up, held at 2^32 − 1.
#[tactic(auto, unfolding(rules_timers::specs::Checks::idle_after))]
fn idle_after(timers: Timers, exp: Timer, now: u64) -> Result<(Option<u32>, Timers), Refusal>
    ensures { result ≡ idle_after timers exp now }
{
    let t = timer::tick(timers.peer_idle, now);
    let mut after = timers;
    after.exp = exp;
    after.peer_idle = t.timer;
    if heard(t.elapsed, EXP_MAX < timers.exp_count) {
        return Ok((t.elapsed, after));
    }
    after.exp_count = timers.exp_count.saturating_add(1);
    Ok((None, after))
}

// Nothing happens unless EXP has expired.
#[tactic(auto, unfolding(rules_timers::specs::Checks::idle))]
fn idle(timers: Timers, now: u64) -> Result<(Option<u32>, Timers), Refusal>
    ensures { result ≡ idle timers now }
{
    let t = timer::tick(timers.exp, now);
    match t.elapsed {
        None => Ok((None, timers)),
        Some(_) => idle_after(timers, t.timer, now),
    }
}

#[tactic(auto, unfolding(rules_timers::specs::Checks::check_peer_idle_timeout))]
pub fn check_peer_idle_timeout(timers: Timers, now: u64) -> Result<(Option<u32>, Timers), Refusal>
    ensures { result ≡ check_peer_idle_timeout timers now }
{
    timers::judge(timers, now)?;
    idle(timers, now)
}
