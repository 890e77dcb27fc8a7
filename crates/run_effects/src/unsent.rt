// Rule 5: document 01, "Send the next unsent. If the one after it has a number divisible by 16 and is buffered, send it
// at once, also past budget and window."
ghost use Rattle.std.specs.Prelude.{◌^◌, ◌<◌};
ghost use Rattle.run_effects.specs.Sending.{HasRoom, Acts, next_turn, sixteen_turn, unsent_turn};
ghost use Rattle.run_effects.specs.Sending.Laws.{Sendable};
ghost use Rattle.run_effects.specs.Sending.Rules.{Standing};
ghost use Rattle.run_effects.specs.Sending.Unsent.{Sixteen};

use crate::Records;
use crate::packet::send_packet;
use action_records::Kind;
use buffer::SendBuffer;

// Sends the next unsent packet.
fn send_next_packet(
    b: SendBuffer,
    ts_now: u64,
    ring: &mut [u64],
    records: &mut Records,
) -> SendBuffer
    requires sendable { Sendable b b.sent ts_now ring.old }
    requires room { HasRoom 1 records.old }
    ensures { Acts (next_turn ts_now) b ring.old records.old result ring.new records.new }
{
    send_packet(
        b,
        Kind::Send,
        ts_now,
        b.sent as usize,
        b.sent + 1,
        ring,
        records,
    )
}

// Sends the packet after it at once, if it is buffered and its number is divisible by 16.
fn send_next_16n_packet(
    b: SendBuffer,
    ts_now: u64,
    ring: &mut [u64],
    records: &mut Records,
) -> SendBuffer
    requires sixteen { Sixteen b ts_now ring.old }
    requires room { HasRoom 1 records.old }
    ensures { Acts (sixteen_turn ts_now) b ring.old records.old result ring.new records.new }
{
    let next = numbers::plus(b.front, b.sent);
    if (next.0 % 16 == 0) & ((b.sent as usize) < b.ring.len) {
        return send_next_packet(b, ts_now, ring, records);
    }
    b
}

// Does both, one after the other.
pub fn send_unsent(
    b: SendBuffer,
    ts_now: u64,
    ring: &mut [u64],
    records: &mut Records,
) -> SendBuffer
    requires standing { Standing b ring.old }
    requires sent_lt_len { (b.sent < b.ring.len) × (ts_now < 2 ^ 48) × HasRoom 2 records.old }
    ensures { Acts (unsent_turn ts_now) b ring.old records.old result ring.new records.new }
{
    let first = send_next_packet(b, ts_now, ring, records);
    send_next_16n_packet(first, ts_now, ring, records)
}
