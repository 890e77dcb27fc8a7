// Document 01, "Pacing", as types: what is kept. The rules for them are in specs/.
#![tactic(auto)]

// The count since the last estimate (the Rust's `total` less `last`), and that estimate, per second.
#[repr(C)]
#[derive(Clone, Copy, Default)]
pub struct RateEstimation {
    pub count: u64,
    pub mean: u64,
    pub variance: u64,
}

// How fast the sender may go: rates in bytes per second, overhead in percent.
#[derive(Clone, Copy)]
pub enum LiveBandwidthMode {
    Input { rate: u64, overhead: u64 },
    Estimated { expected: u64, overhead: u64 },
    Max(u64),
    Unlimited,
}

// Everything that pacing keeps.
#[derive(Clone, Copy)]
pub struct SenderCongestionControl {
    pub next: Option<u64>,
    pub packets: RateEstimation,
    pub bytes: RateEstimation,
    pub bandwidth_mode: LiveBandwidthMode,
}
