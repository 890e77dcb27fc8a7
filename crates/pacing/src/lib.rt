// Live pacing: document 01, "Pacing"; the Rust's sender/congestion_control.rs. Input is counted, the rates are
// estimated from the counts every 100,000 µs, and the period between two packets follows from the rates and the
// bandwidth mode. Ranges stand in the contracts, since a caller may give `new` and `on_input` any numbers. Packets and
// bytes go side by side as `on_input` takes them, which docs/ promise.
#![tactic(auto)]

ghost use Rattle.std.specs.Prelude.{◌≡◌, ◌+◌, ◌≤◌, ◌<◌, ◌^◌};
ghost use Rattle.rate.specs.Laws.{Ranged};
ghost use Rattle.rules_pacing.specs.Period.{allowed, period};
ghost use Rattle.pacing.specs.Laws.Period.{ModeRanged};
ghost use Rattle.rules_pacing.specs.Kept.{next_in_range, kept, new};
ghost use Rattle.pacing.specs.Laws.Kept.{Kept};
ghost use Rattle.rules_pacing.specs.Pacing.{due, count_full, estimated, moved, added, input, on_input};
ghost use Rattle.pacing.specs.Laws.Pacing.{Accepted};

use options::{mode_in_range, with_overhead};
use rate::{calculate, elapsed, increment, passes, since};
use rules_numbers::TIME_LIMIT;
use rules_pacing::{LiveBandwidthMode, RateEstimation, SenderCongestionControl};
use rules_refusals::Refusal;

pub mod options;

const GIGABIT: u64 = 1_000_000_000 / 8;

const PERIOD_MOST: u64 = 1_000_000_000_000;

const NEXT_LIMIT: u64 = 1 << 49;

fn next_in_range(next: Option<u64>) -> bool
    ensures { result ≡ next_in_range next }
{
    next.is_none_or(|next| next < NEXT_LIMIT)
}

fn due(next: Option<u64>, now: u64) -> bool
    ensures { result ≡ due next now }
{
    next.is_some_and(|next| next <= now)
}

// Pacing of a new sender. Refuses BadSetting.
#[tactic(auto, unfolding(rules_pacing::specs::Kept::new))]
pub fn new(bandwidth_mode: LiveBandwidthMode) -> Result<SenderCongestionControl, Refusal>
    ensures { result ≡ new bandwidth_mode }
{
    if !mode_in_range(bandwidth_mode) {
        return Err(Refusal::BadSetting);
    }
    Ok(SenderCongestionControl {
        next: None,
        packets: RateEstimation::default(),
        bytes: RateEstimation::default(),
        bandwidth_mode,
    })
}

// Whether the book rules hold.
#[tactic(auto, unfolding(rules_pacing::specs::Kept::kept))]
pub fn kept(s: SenderCongestionControl) -> bool
    ensures { result ≡ kept s }
{
    next_in_range(s.next)
        && rate::in_range(s.packets)
        && rate::in_range(s.bytes)
        && mode_in_range(s.bandwidth_mode)
}

// Whether an input would pass the most that may be counted; for any numbers, whether or not the book rules hold.
#[tactic(auto, unfolding(rules_pacing::specs::Pacing::count_full))]
pub fn count_full(s: SenderCongestionControl, now: u64, packets: u64, bytes: u64) -> bool
    ensures { result ≡ count_full s now packets bytes }
{
    let due = due(s.next, now);
    passes(since(due, s.packets.count), packets) || passes(since(due, s.bytes.count), bytes)
}

// An input of packets and their payload bytes at `now`. Refuses BadState, BadTime and CountFull.
#[tactic(auto, unfolding(rules_pacing::specs::Pacing::on_input))]
pub fn on_input(
    s: SenderCongestionControl,
    now: u64,
    packets: u64,
    bytes: u64,
) -> Result<(Option<u64>, SenderCongestionControl), Refusal>
    ensures { result ≡ on_input s now packets bytes }
{
    if !kept(s) {
        return Err(Refusal::BadState);
    }
    if TIME_LIMIT <= now {
        return Err(Refusal::BadTime);
    }
    if count_full(s, now, packets, bytes) {
        return Err(Refusal::CountFull);
    }
    input(s, now, packets, bytes)
}

// The estimate is made before this input is added.
#[tactic(auto, unfolding(rules_pacing::specs::Pacing::input, rules_pacing::specs::Pacing::after, rules_pacing::specs::Pacing::snd_period))]
fn input(
    s: SenderCongestionControl,
    now: u64,
    packets: u64,
    bytes: u64,
) -> Result<(Option<u64>, SenderCongestionControl), Refusal>
    requires { Accepted s now packets bytes }
    ensures { result ≡ input s now packets bytes }
{
    let moved = moved(s, now);
    let after = add(moved, packets, bytes);
    if due(s.next, now) {
        let period = calculate_snd_period(moved, moved.packets.mean, moved.bytes.mean);
        Ok((Some(period), after))
    } else {
        Ok((None, after))
    }
}

// Sets next at the first input; if an estimate is due, makes it and moves next past now.
#[tactic(auto, unfolding(rules_pacing::specs::Pacing::moved, rules_pacing::specs::Pacing::moved_at))]
fn moved(s: SenderCongestionControl, now: u64) -> SenderCongestionControl
    requires { Kept s × (now < 2 ^ 48) }
    ensures { result ≡ moved s now }
{
    match s.next {
        None => SenderCongestionControl {
            next: Some(now + 100_000),
            ..s
        },
        Some(next) if next <= now => estimated(s, next, now),
        Some(_) => s,
    }
}

#[tactic(auto, unfolding(rules_pacing::specs::Pacing::estimated))]
fn estimated(s: SenderCongestionControl, next: u64, now: u64) -> SenderCongestionControl
    requires { Ranged s.packets × Ranged s.bytes × (next ≤ now) × (now < 2 ^ 48) }
    ensures { result ≡ estimated s next now }
{
    let time = elapsed(now, next);
    SenderCongestionControl {
        next: Some(next + time),
        packets: calculate(s.packets, time),
        bytes: calculate(s.bytes, time),
        ..s
    }
}

#[tactic(auto, unfolding(rules_pacing::specs::Pacing::added))]
fn add(s: SenderCongestionControl, packets: u64, bytes: u64) -> SenderCongestionControl
    requires { (s.packets.count + packets ≤ 2 ^ 38) × (s.bytes.count + bytes ≤ 2 ^ 38) }
    ensures { result ≡ added s packets bytes }
{
    SenderCongestionControl {
        packets: increment(s.packets, packets),
        bytes: increment(s.bytes, bytes),
        ..s
    }
}

fn calculate_max_data_rate(s: SenderCongestionControl, actual_data_rate: u64) -> u64
    requires { ModeRanged s.bandwidth_mode × (actual_data_rate ≤ 2 ^ 42) }
    ensures { result ≡ allowed s.bandwidth_mode actual_data_rate }
{
    // A local that is matched: document 01 names this form.
    let mode = s.bandwidth_mode;
    match mode {
        LiveBandwidthMode::Input { rate, overhead } => with_overhead(rate, overhead),
        LiveBandwidthMode::Estimated { expected, overhead } => {
            with_overhead(expected.max(actual_data_rate), overhead)
        }
        LiveBandwidthMode::Max(rate) => rate,
        LiveBandwidthMode::Unlimited => GIGABIT,
    }
}

// 1 µs if a divisor is 0; held at both ends.
#[tactic(auto, unfolding(rules_pacing::specs::Period::period))]
fn calculate_snd_period(s: SenderCongestionControl, packet_rate: u64, data_rate: u64) -> u64
    requires { ModeRanged s.bandwidth_mode × (data_rate ≤ 2 ^ 42) }
    ensures { result ≡ period (allowed s.bandwidth_mode data_rate) data_rate packet_rate }
{
    let max_data_rate = calculate_max_data_rate(s, data_rate);
    if packet_rate == 0 || max_data_rate == 0 {
        return 1;
    }
    let size = data_rate / packet_rate;
    let period = 1_000_000 * size / max_data_rate;
    period.clamp(1, PERIOD_MOST)
}
