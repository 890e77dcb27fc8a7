// A sending: document 01, "Run", "Sends 2, 3 and 5 set the resend time ..", and "Action record"; the Rust's
// `send_packet`.
ghost use Rattle.std.specs.Prelude.{◌≡◌, ◌^◌, ◌≤◌, ◌<◌};
ghost use Rattle.rules.specs.Run.{wait};
ghost use Rattle.action_records.specs.Record.{kind_of};
ghost use Rattle.run_effects.specs.Sending.{HasRoom, stamped, Acts, sent_as};
ghost use Rattle.run_effects.specs.Sending.Laws.{Recorded, Sendable};

use crate::Records;
use action_records::{Kind, Record};
use buffer::SendBuffer;
use ring::Entry;
use rules_numbers::{Rtt, SeqNumber, TRANSMIT_MOST};

// The longest time to a resend, in microseconds: 2^30 − 1.
const LONGEST: u64 = 0x3FFF_FFFF;

// The time from now to the resend, for a packet sent `count` times before.
fn resend_after(base: u64, count: u64) -> u64
    requires { (base ≤ 1_000_000_000) × (count ≤ 65_535) }
    ensures { result ≡ wait base count }
{
    if count < 1 {
        return LONGEST.min(base);
    }
    LONGEST.min(count * base + 10_000)
}

// The entry after a sending: sent once more, with its next resend time.
fn stamped(e: Entry, ts_now: u64, rtt: Rtt) -> Entry
    requires { (e.count ≤ 65_535) × (ts_now < 2 ^ 48) × (rtt.mean ≤ 100_000_000) × (rtt.variance ≤ 100_000_000) }
    ensures { result ≡ stamped ts_now rtt e }
{
    let base = rtt.mean as u64 + 4 * (rtt.variance as u64) + 20_000;
    Entry {
        count: TRANSMIT_MOST.min(e.count + 1),
        resend: ts_now + resend_after(base, e.count),
        ..e
    }
}

// The record of a sending, made from the packet as it was before it. Its flags are packed, as `Record::flags` is.
pub fn send_record(kind: Kind, number: SeqNumber, e: Entry) -> Record
    requires { (e.time < 2 ^ 48) × (e.message < 2 ^ 26) × (e.len ≤ 1_456) }
    ensures { Recorded (kind_of kind) number.0 e result }
{
    Record {
        kind,
        flags: (e.place.min(3) * 64 + e.count.min(1)) as u8,
        len: e.len as u16,
        number: number.0,
        word: e.message as u32,
        stamp: encapsulate::stamp(e.time),
        time: e.time,
    }
}

// Sends packet `i` from the front, after which `sent` packets are sent. All rules but the flush send by this.
pub fn send_packet(
    b: SendBuffer,
    kind: Kind,
    ts_now: u64,
    i: usize,
    sent: u32,
    ring: &mut [u64],
    records: &mut Records,
) -> SendBuffer
    requires sendable { Sendable b i ts_now ring.old }
    requires room { HasRoom 1 records.old }
    ensures { Acts (sent_as (kind_of kind) ts_now i sent) b ring.old records.old result ring.new records.new }
{
    let e = b.ring.entry(ring, i);
    b.ring.set_entry(ring, i, stamped(e, ts_now, b.rtt));
    records.push(send_record(kind, numbers::plus(b.front, i as u32), e));
    SendBuffer { sent, ..b }
}
