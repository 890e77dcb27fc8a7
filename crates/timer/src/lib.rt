// One timer: document 01, "Timers"; the Rust's time/timer.rs.
#![tactic(auto)]

ghost use Rattle.std.specs.Prelude.{◌≡◌};
ghost use Rattle.rules_timers.specs.Timer.{kept, started, made, period_of, next_instant, reset, set_period, ticked, check_expired};

use rules_refusals::Refusal;
use rules_timers::{INSTANT_LIMIT, NEW_PERIOD_LEAST, PERIOD_MOST, Ticked, Timer};

#[tactic(auto, unfolding(rules_timers::specs::Timer::made))]
pub fn new(now: u64, period: u64) -> Result<Timer, Refusal>
    ensures { result ≡ made now period }
{
    if PERIOD_MOST < period {
        return Err(Refusal::BadSetting);
    }
    if INSTANT_LIMIT <= now {
        return Err(Refusal::BadTime);
    }
    Ok(started(now, period))
}

// A new timer from any numbers, untested. If the period is too short it is raised, not refused.
pub fn started(now: u64, period: u64) -> Timer
    ensures { result ≡ started now period }
{
    Timer {
        period: period.max(NEW_PERIOD_LEAST),
        last: now,
    }
}

// Whether the timer keeps the book rules.
pub fn kept(t: Timer) -> bool
    ensures { result ≡ kept t }
{
    t.last < INSTANT_LIMIT && t.period <= PERIOD_MOST
}

// Each call by its own name, as document 01 and docs/ have them.
#[tactic(auto, unfolding(rules_timers::specs::Timer::period_of))]
pub fn period(t: Timer) -> Result<u64, Refusal>
    ensures { result ≡ period_of t }
{
    if !kept(t) {
        return Err(Refusal::BadState);
    }
    Ok(t.period)
}

#[tactic(auto, unfolding(rules_timers::specs::Timer::next_instant))]
pub fn next_instant(t: Timer) -> Result<u64, Refusal>
    ensures { result ≡ next_instant t }
{
    if !kept(t) {
        return Err(Refusal::BadState);
    }
    Ok(t.last + t.period)
}

#[tactic(auto, unfolding(rules_timers::specs::Timer::reset))]
pub fn reset(t: Timer, now: u64) -> Result<Timer, Refusal>
    ensures { result ≡ reset t now }
{
    if !kept(t) {
        return Err(Refusal::BadState);
    }
    if INSTANT_LIMIT <= now {
        return Err(Refusal::BadTime);
    }
    Ok(Timer { last: now, ..t })
}

#[tactic(auto, unfolding(rules_timers::specs::Timer::set_period))]
pub fn set_period(t: Timer, period: u64) -> Result<Timer, Refusal>
    ensures { result ≡ set_period t period }
{
    if PERIOD_MOST < period {
        return Err(Refusal::BadSetting);
    }
    if !kept(t) {
        return Err(Refusal::BadState);
    }
    Ok(Timer { period, ..t })
}

// A check at `now`, of any timer: "always answers 1 and doesn't move", or nothing "before origin + period", or
// "floor(elapsed / period), held at 2^32 − 1, and the origin moves by that many periods".
#[tactic(auto, unfolding(rules_timers::specs::Timer::ticked, rules_timers::specs::Timer::periods))]
pub fn tick(t: Timer, now: u64) -> Ticked
    ensures { result ≡ ticked t now }
{
    if t.period == 0 {
        return Ticked {
            elapsed: Some(1),
            timer: t,
        };
    }
    let elapsed = now.saturating_sub(t.last);
    if elapsed < t.period {
        return Ticked {
            elapsed: None,
            timer: t,
        };
    }
    let n = (elapsed / t.period).min(u32::MAX as u64);
    Ticked {
        elapsed: Some(n as u32),
        timer: Timer {
            last: t.last + n * t.period,
            ..t
        },
    }
}

#[tactic(auto, unfolding(rules_timers::specs::Timer::check_expired))]
pub fn check_expired(t: Timer, now: u64) -> Result<Ticked, Refusal>
    ensures { result ≡ check_expired t now }
{
    if !kept(t) {
        return Err(Refusal::BadState);
    }
    if INSTANT_LIMIT <= now {
        return Err(Refusal::BadTime);
    }
    Ok(tick(t, now))
}
