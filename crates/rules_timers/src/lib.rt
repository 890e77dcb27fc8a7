// Document 01, "Timers", as types: what is kept, and what a check finds. The rules for them are in specs/.
#![tactic(auto)]

// Times, in nanoseconds, must be below this.
pub const INSTANT_LIMIT: u64 = 1 << 58;
// The longest period, in nanoseconds.
pub const PERIOD_MOST: u64 = 1_000_000_000_000_000;
// A new timer's period is at least this.
pub const NEW_PERIOD_LEAST: u64 = 1_000;

// Expires every `period` nanoseconds from `last` on.
#[repr(C)]
#[derive(Clone, Copy, Default)]
pub struct Timer {
    pub period: u64,
    pub last: u64,
}

// The answer of a check, and the timer after it.
#[derive(Clone, Copy)]
pub struct Ticked {
    pub elapsed: Option<u32>,
    pub timer: Timer,
}

// The periods of the ACK, NAK and EXP timers.
#[derive(Clone, Copy)]
pub struct Periods {
    pub ack: u64,
    pub nak: u64,
    pub exp: u64,
}

// All timers of a connection, and EXP's count: 1 when the peer was last heard, plus 1 for each expiry of EXP since.
#[repr(C)]
#[derive(Clone, Copy, Default)]
pub struct Timers {
    pub snd: Timer,
    pub full_ack: Timer,
    pub nak: Timer,
    pub exp: Timer,
    pub exp_count: u32,
    pub peer_idle: Timer,
    pub statistics: Timer,
}

// The timers that have a check of their own.
#[derive(Clone, Copy)]
pub enum Which {
    Snd,
    FullAck,
    Nak,
    Statistics,
}
