// The periods that follow from a round-trip time: document 01, "Timers"; the Rust's `calculate_periods` in time/mod.rs.
// All are nanoseconds. The range of a round-trip time stands in the contracts, since C fills an `Rtt` with any numbers.
#![tactic(auto)]

ghost use Rattle.std.specs.Prelude.{◌≡◌};
ghost use Rattle.rules_numbers.specs.Rtt.{Ranged};
ghost use Rattle.rules_timers.specs.Periods.{nak_period, exp_period, calculate_periods};

use rules_numbers::Rtt;
use rules_timers::Periods;

// NAK: "max((mean + 4 × variance) / 2, 20 ms)".
fn nak_period(rtt: Rtt) -> u64
    requires { Ranged rtt }
    ensures { result ≡ nak_period rtt }
{
    let mean = rtt.mean as u64;
    let variance = rtt.variance as u64;
    ((mean * 1_000 + 4 * (variance * 1_000)) / 2).max(20_000_000)
}

// EXP: "count × (4 × mean + variance + 10 ms)", at least count × 300 ms, held at the longest period.
fn exp_period(exp_count: u32, rtt: Rtt) -> u64
    requires { Ranged rtt }
    ensures { result ≡ exp_period exp_count rtt }
{
    let mean = rtt.mean as u64;
    let variance = rtt.variance as u64;
    let one = (4 * (mean * 1_000) + variance * 1_000 + 10_000_000).max(300_000_000);
    (exp_count as u64)
        .saturating_mul(one)
        .min(rules_timers::PERIOD_MOST)
}

pub fn calculate_periods(exp_count: u32, rtt: Rtt) -> Periods
    requires { Ranged rtt }
    ensures { result ≡ calculate_periods exp_count rtt }
{
    Periods {
        ack: 10_000_000,
        nak: nak_period(rtt),
        exp: exp_period(exp_count, rtt),
    }
}
