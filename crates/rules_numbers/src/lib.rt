// Document 01, "Numbers and their ends": the two kinds of number and the round-trip time, as types. What is said of them stands in specs/.
#![tactic(auto)]

// A time at or over this many microseconds is refused.
pub const TIME_LIMIT: u64 = 1 << 48;
// The largest payload of a packet, in bytes.
pub const SIZE_MOST: u32 = 1_456;
// The longest message, in bytes.
pub const LENGTH_MOST: usize = 1_048_576;
// The byte count stays below this.
pub const BYTES_LIMIT: u64 = 1 << 62;
// A packet's transmit count is held here.
pub const TRANSMIT_MOST: u64 = 65_535;

// The number of a packet: 31 bits.
#[derive(Clone, Copy, Debug, PartialEq, Eq)]
pub struct SeqNumber(pub u32);

// The number of a message: 26 bits.
#[derive(Clone, Copy, Debug, PartialEq, Eq)]
pub struct MsgNumber(pub u32);

// Mean and variance of the round-trip time, in microseconds.
#[repr(C)]
#[derive(Clone, Copy, Default)]
pub struct Rtt {
    pub mean: u32,
    pub variance: u32,
}
