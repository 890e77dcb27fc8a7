// The bandwidth mode: document 01, "Pacing"; the Rust's options.
ghost use Rattle.std.specs.Prelude.{◌≡◌, ◌&&◌, ◌≤◌, ◌^◌, leb};
ghost use Rattle.rules_pacing.specs.Period.{mode_in_range, with_overhead};

use rules_pacing::LiveBandwidthMode;

const RATE_MOST: u64 = 1 << 40;

const OVERHEAD_MOST: u64 = 10_000;

pub(crate) fn mode_in_range(mode: LiveBandwidthMode) -> bool
    ensures { result ≡ mode_in_range mode }
{
    match mode {
        LiveBandwidthMode::Input { rate, overhead } => within(rate, overhead),
        LiveBandwidthMode::Estimated { expected, overhead } => within(expected, overhead),
        LiveBandwidthMode::Max(rate) => rate <= RATE_MOST,
        LiveBandwidthMode::Unlimited => true,
    }
}

fn within(rate: u64, overhead: u64) -> bool
    ensures { result ≡ (leb rate (2 ^ 40) && leb overhead 10_000) }
{
    rate <= RATE_MOST && overhead <= OVERHEAD_MOST
}

// The rate plus its overhead in percent: multiplied first, divided once.
pub(crate) fn with_overhead(rate: u64, overhead: u64) -> u64
    requires { (rate ≤ 2 ^ 42) × (overhead ≤ 10_000) }
    ensures { result ≡ with_overhead rate overhead }
{
    rate * (100 + overhead) / 100
}
