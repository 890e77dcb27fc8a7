// The timers of a sender, made and set: document 01, "Timers"; the Rust's time/mod.rs. Times are nanoseconds,
// round-trip times microseconds. The time is a call's, no part of the timers, so it is a parameter beside them.
#![tactic(auto)]

ghost use Rattle.std.specs.Prelude.{◌≡◌};
ghost use Rattle.rules_timers.specs.Timers.{kept_all, judge, judge_new, judge_period, judge_rtt, begun, new, update_snd_period, update_rtt, reset_exp};

use rtt_periods::calculate_periods;
use rules_numbers::Rtt;
use rules_refusals::Refusal;
use rules_timers::{INSTANT_LIMIT, PERIOD_MOST, Timers};

#[tactic(auto, unfolding(rules_timers::specs::Timers::judge_new))]
fn judge_new(now: u64, statistics: u64, idle: u64) -> Result<(), Refusal>
    ensures { result ≡ judge_new now statistics idle }
{
    if PERIOD_MOST < statistics || PERIOD_MOST < idle {
        return Err(Refusal::BadSetting);
    }
    if INSTANT_LIMIT <= now {
        return Err(Refusal::BadTime);
    }
    Ok(())
}

#[tactic(auto, unfolding(rules_timers::specs::Timers::new))]
pub fn new(now: u64, statistics_interval: u64, peer_idle_timeout: u64) -> Result<Timers, Refusal>
    ensures { result ≡ new now statistics_interval peer_idle_timeout }
{
    judge_new(now, statistics_interval, peer_idle_timeout)?;
    Ok(begun(now, statistics_interval, peer_idle_timeout))
}

// New timers from any numbers, untested.
fn begun(now: u64, statistics_interval: u64, peer_idle_timeout: u64) -> Timers
    ensures { result ≡ begun now statistics_interval peer_idle_timeout }
{
    let p = calculate_periods(1, rtt::start());
    Timers {
        snd: timer::started(now, 1_000_000),
        full_ack: timer::started(now, p.ack),
        nak: timer::started(now, p.nak),
        exp: timer::started(now, p.exp),
        exp_count: 1,
        peer_idle: timer::started(now, peer_idle_timeout),
        statistics: timer::started(now, statistics_interval),
    }
}

// Whether all timers keep the book rules.
pub fn kept(ts: Timers) -> bool
    ensures { result ≡ kept_all ts }
{
    timer::kept(ts.snd)
        && timer::kept(ts.full_ack)
        && timer::kept(ts.nak)
        && timer::kept(ts.exp)
        && timer::kept(ts.peer_idle)
        && timer::kept(ts.statistics)
        && 1 <= ts.exp_count
}

// Refusals 3 and 4, which most calls share.
#[tactic(auto, unfolding(rules_timers::specs::Timers::judge))]
pub fn judge(ts: Timers, now: u64) -> Result<(), Refusal>
    ensures { result ≡ judge ts now }
{
    if !kept(ts) {
        return Err(Refusal::BadState);
    }
    if INSTANT_LIMIT <= now {
        return Err(Refusal::BadTime);
    }
    Ok(())
}

#[tactic(auto, unfolding(rules_timers::specs::Timers::judge_period))]
fn judge_period(ts: Timers, period: u64) -> Result<(), Refusal>
    ensures { result ≡ judge_period ts period }
{
    if PERIOD_MOST < period {
        return Err(Refusal::BadSetting);
    }
    if !kept(ts) {
        return Err(Refusal::BadState);
    }
    Ok(())
}

#[tactic(auto, unfolding(rules_timers::specs::Timers::judge_rtt))]
fn judge_rtt(ts: Timers, rtt: Rtt) -> Result<(), Refusal>
    ensures { result ≡ judge_rtt ts rtt }
{
    if !kept(ts) {
        return Err(Refusal::BadState);
    }
    if !rtt::in_range(rtt) {
        return Err(Refusal::BadRtt);
    }
    Ok(())
}

#[tactic(auto, unfolding(rules_timers::specs::Timers::update_snd_period))]
pub fn update_snd_period(ts: Timers, period: u64) -> Result<Timers, Refusal>
    ensures { result ≡ update_snd_period ts period }
{
    judge_period(ts, period)?;
    let mut after = ts;
    after.snd.period = period;
    Ok(after)
}

#[tactic(auto, unfolding(rules_timers::specs::Timers::update_rtt))]
pub fn update_rtt(ts: Timers, rtt: Rtt) -> Result<Timers, Refusal>
    ensures { result ≡ update_rtt ts rtt }
{
    judge_rtt(ts, rtt)?;
    let p = calculate_periods(ts.exp_count, rtt);
    let mut after = ts;
    after.full_ack.period = p.ack;
    after.nak.period = p.nak;
    after.exp.period = p.exp;
    Ok(after)
}

// The peer was heard: EXP's count starts again at 1 and the idle timer at now; EXP's own origin and period stay.
#[tactic(auto, unfolding(rules_timers::specs::Timers::reset_exp))]
pub fn reset_exp(ts: Timers, now: u64) -> Result<Timers, Refusal>
    ensures { result ≡ reset_exp ts now }
{
    judge(ts, now)?;
    let mut after = ts;
    after.exp_count = 1;
    after.peer_idle.last = now;
    Ok(after)
}
