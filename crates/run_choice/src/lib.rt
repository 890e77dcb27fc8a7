// Which rule of a run applies: document 01, "Run", rules 1 to 7; the order of the Rust's `SenderAlgorithmIterator`.
// An entry's ranges and the time's stand in the contracts: both come from C as any numbers, and are tested where a call is judged.
// `ts_now` and `draining` are a run's: they go side by side, as the public call takes them.
#![tactic(auto)]

ghost use Rattle.std.specs.Prelude.{◌≡◌, ◌+◌, ◌^◌, ◌≤◌, ◌<◌, ltb, eqb, ◌&&◌};
ghost use Rattle.rules.specs.Settings.{late_window};
ghost use Rattle.rules.specs.Run.{late};
ghost use Rattle.buffer.specs.State.{settings_of, packets_of};
ghost use Rattle.buffer.specs.State.Facts.{Readable};
ghost use Rattle.run_choice.specs.Choice.{rule_by, due_at, rule_at};
ghost use Rattle.run_choice.specs.Choice.Laws.{Timed};

use buffer::{SendBuffer, Settings};
use ring::Entry;

// The first of rules 2 to 7 that applies; a packet is given by its index from the front.
#[derive(Clone, Copy)]
pub enum Rule {
    Loss,
    Due(usize),
    Window,
    Unsent,
    Flush,
    Input,
}

// Whether the entry is late: now is strictly past its full time plus the window.
fn is_late(e: Entry, c: Settings, ts_now: u64) -> bool
    requires { (e.time < 2 ^ 48) × (c.latency ≤ 65_535_000) }
    ensures { result ≡ ltb (e.time + late_window (settings_of c)) ts_now }
{
    e.time + (c.late_window() as u64) < ts_now
}

// How many packets rule 1 drops: from the front through every packet that is late or of the same message as the latest
// late one.
pub fn late_packets(b: SendBuffer, c: Settings, ts_now: u64, ring: &[u64]) -> usize
    requires { Readable (settings_of c) b.ring ring.now }
    ensures { result ≡ late (settings_of c) ts_now (packets_of b.ring ring.now) }
{
    if b.ring.len < 1 {
        return 0;
    }
    let front = b.ring.entry(ring, 0);
    if !is_late(front, c, ts_now) {
        return 0;
    }
    let mut message = front.message;
    for i in 1..b.ring.len {
        let e = b.ring.entry(ring, i);
        if !(is_late(e, c, ts_now) | (e.message == message)) {
            return i;
        }
        message = e.message;
    }
    b.ring.len
}

// The packet with the earliest resend time strictly before now; of two with the same time, the one nearer the front.
pub fn earliest(b: SendBuffer, ts_now: u64, ring: &[u64]) -> Option<usize>
    requires { Timed b ring.now }
    ensures { result ≡ due_at ts_now b ring.now }
{
    let mut before = ts_now;
    let mut found = None;
    for i in 0..b.sent as usize {
        let e = b.ring.entry(ring, i);
        if e.resend < before {
            before = e.resend;
            found = Some(i);
        }
    }
    found
}

// The first of rules 4 to 7 that applies.
fn rule_of_the_rest(b: SendBuffer, c: Settings, draining: bool) -> Rule
    ensures { result ≡ rule_by 0 None (ltb c.flow b.sent) (ltb b.sent b.ring.len) (draining && eqb b.ring.len 1) }
{
    if b.flow_window_exceeded(c) {
        return Rule::Window;
    }
    if (b.sent as usize) < b.ring.len {
        return Rule::Unsent;
    }
    if draining & (b.ring.len == 1) {
        return Rule::Flush;
    }
    Rule::Input
}

// The first of rules 2 to 7 that applies.
pub fn first_rule(b: SendBuffer, c: Settings, ts_now: u64, draining: bool, ring: &[u64]) -> Rule
    requires { Timed b ring.now }
    ensures { result ≡ rule_at (settings_of c) ts_now draining b ring.now }
{
    if 0 < b.lost {
        return Rule::Loss;
    }
    match earliest(b, ts_now, ring) {
        Some(i) => Rule::Due(i),
        None => rule_of_the_rest(b, c, draining),
    }
}
