// Pacing as numbers, and the pacing they encode. Numbers that encode nothing are read as a time or a rate over its
// limit, so every call refuses them in its order of tests: BadState, or BadSetting for a new sender's mode.
ghost use Rattle.std.specs.Prelude.{◌≡◌};
ghost use Rattle.host_structs.specs.Senders.{next_of, mode_of, code_from, rate_from, overhead_from, control_of, pacing_from};

use rules_pacing::{LiveBandwidthMode, RateEstimation, SenderCongestionControl};

// What pacing keeps. Modes: 0 input, 1 estimated, 2 maximum, 3 unlimited; fields that a mode doesn't use are 0. `begun`
// is 1 from the first input on; before it, `next` is 0.
#[repr(C)]
#[derive(Clone, Copy, Default)]
pub struct FlatPacing {
    pub mode: u32,
    pub begun: u32,
    pub rate: u64,
    pub overhead: u64,
    pub next: u64,
    pub packets: RateEstimation,
    pub bytes: RateEstimation,
}

const NO_TIME: u64 = 0xffff_ffff_ffff_ffff;

const NO_RATE: u64 = 0xffff_ffff_ffff_ffff;

// Not a `From`: C has two numbers for it, and three for a mode.
#[tactic(auto, unfolding(crate::specs::Senders::next_of))]
fn next_of(begun: u32, next: u64) -> Option<u64>
    ensures { result ≡ next_of begun next }
{
    match (begun, next) {
        (1, _) => Some(next),
        (0, 0) => None,
        _ => Some(NO_TIME),
    }
}

// The mode with this number, rate and overhead.
#[tactic(auto, unfolding(crate::specs::Senders::mode_of))]
pub fn mode_of(mode: u32, rate: u64, overhead: u64) -> LiveBandwidthMode
    ensures { result ≡ mode_of mode rate overhead }
{
    match (mode, rate, overhead) {
        (0, _, _) => LiveBandwidthMode::Input { rate, overhead },
        (1, _, _) => LiveBandwidthMode::Estimated {
            expected: rate,
            overhead,
        },
        (2, _, 0) => LiveBandwidthMode::Max(rate),
        (3, 0, 0) => LiveBandwidthMode::Unlimited,
        _ => LiveBandwidthMode::Max(NO_RATE),
    }
}

// The mode's number, rate and overhead.
fn numbers_of(mode: LiveBandwidthMode) -> (u32, u64, u64)
    ensures { result ≡ (code_from mode, rate_from mode, overhead_from mode) }
{
    match mode {
        LiveBandwidthMode::Input { rate, overhead } => (0, rate, overhead),
        LiveBandwidthMode::Estimated { expected, overhead } => (1, expected, overhead),
        LiveBandwidthMode::Max(rate) => (2, rate, 0),
        LiveBandwidthMode::Unlimited => (3, 0, 0),
    }
}

// The pacing that these numbers encode.
impl From<FlatPacing> for SenderCongestionControl {
    ghost from_gives = { λ p c. c ≡ control_of p };

    fn from(p: FlatPacing) -> SenderCongestionControl {
        SenderCongestionControl {
            next: next_of(p.begun, p.next),
            packets: p.packets,
            bytes: p.bytes,
            bandwidth_mode: mode_of(p.mode, p.rate, p.overhead),
        }
    }
}

// Pacing as numbers.
impl From<SenderCongestionControl> for FlatPacing {
    ghost from_gives = { λ c p. p ≡ pacing_from c };

    fn from(c: SenderCongestionControl) -> FlatPacing {
        let (mode, rate, overhead) = numbers_of(c.bandwidth_mode);
        FlatPacing {
            mode,
            begun: u32::from(c.next.is_some()),
            rate,
            overhead,
            next: c.next.unwrap_or(0),
            packets: c.packets,
            bytes: c.bytes,
        }
    }
}
