// How much comes in per second, estimated from the counts: document 01, "Pacing"; the Rust's `RateEstimation`. C's structs
// hold one as any numbers, so its ranges stand in the contracts.
#![tactic(auto)]

ghost use Rattle.std.specs.Prelude.{◌≡◌, cond, ◌+◌, ◌≤◌, ◌<◌, ◌^◌};
ghost use Rattle.rules_pacing.specs.Rate.{elapsed, rate, still, new_mean, estimate, increment, passes, in_range};
ghost use Rattle.rate.specs.Laws.{Ranged};

use rules_pacing::RateEstimation;

const COUNT_MOST: u64 = 1 << 38;

const MEAN_MOST: u64 = 1 << 42;

// The time, in microseconds, that an estimate due at `next` covers.
pub fn elapsed(now: u64, next: u64) -> u64
    requires { (next ≤ now) × (now < 2 ^ 48) }
    ensures { (result ≡ elapsed now next) × (100_000 ≤ result) × (next + result ≤ now + 100_000) }
{
    100_000 * (1 + (now - next) / 100_000)
}

fn rate(count: u64, time: u64) -> u64
    requires { (count ≤ 2 ^ 38) × (100_000 ≤ time) }
    ensures { (result ≡ rate count time) × (result ≤ 2 ^ 42) }
{
    count * 1_000_000 / time
}

// The count since the last estimate; an estimate that is due is taken as made.
pub fn since(due: bool, count: u64) -> u64
    ensures { result ≡ cond due 0 count }
{
    if due { 0 } else { count }
}

// Whether `more` on top of `count` passes the most that may be counted. They may be any numbers: a sum that doesn't fit
// passes too.
pub fn passes(count: u64, more: u64) -> bool
    ensures { result ≡ passes count more }
{
    COUNT_MOST < count.saturating_add(more)
}

pub fn in_range(e: RateEstimation) -> bool
    ensures { result ≡ in_range e }
{
    e.count <= COUNT_MOST && e.mean <= MEAN_MOST && e.variance <= MEAN_MOST
}

pub fn increment(e: RateEstimation, count: u64) -> RateEstimation
    requires { e.count + count ≤ 2 ^ 38 }
    ensures { result ≡ increment e count }
{
    RateEstimation {
        count: e.count + count,
        ..e
    }
}

// The estimate over `time` microseconds.
#[tactic(auto, unfolding(rules_pacing::specs::Rate::estimate))]
pub fn calculate(e: RateEstimation, time: u64) -> RateEstimation
    requires { Ranged e × (100_000 ≤ time) }
    ensures { result ≡ estimate time e }
{
    let rate = rate(e.count, time);
    let mean = new_mean(e, rate);
    let diff = mean.abs_diff(rate);
    let variance = (3 * e.variance + diff) / 4;
    RateEstimation {
        count: 0,
        mean,
        variance,
    }
}

// The mean follows a rise faster than a fall.
#[tactic(auto, unfolding(rules_pacing::specs::Rate::new_mean))]
fn new_mean(e: RateEstimation, rate: u64) -> u64
    requires { (e.mean ≤ 2 ^ 42) × (rate ≤ 2 ^ 42) }
    ensures { (result ≡ new_mean e rate) × (result ≤ 2 ^ 42) }
{
    if still(e) {
        rate
    } else if e.mean < rate {
        (e.mean + rate) / 2
    } else {
        (7 * e.mean + rate) / 8
    }
}

fn still(e: RateEstimation) -> bool
    ensures { result ≡ still e }
{
    e.mean == 0 && e.variance == 0
}
