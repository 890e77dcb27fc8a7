// Rules 1 and 6, which remove packets from the buffer: document 01, "drop from the front ..; Loss entries go too; next
// unsent moves past them." and "Draining with one packet buffered: send and remove it."
ghost use Rattle.std.specs.Prelude.{◌^◌, ◌<◌};
ghost use Rattle.buffer.specs.State.{settings_of, state};
ghost use Rattle.buffer.specs.Removal.Laws.{Removable};
ghost use Rattle.run_effects.specs.Sending.{HasRoom, Wrote, flush_turn};
ghost use Rattle.run_effects.specs.Sending.Rules.{Flushable, Drops};

use crate::Records;
use crate::packet::send_record;
use action_records::{Kind, Record};
use buffer::{FlushedPacket, SendBuffer, Settings};

// Rule 1: drops `k` packets.
pub fn drop_too_late_packets(
    b: SendBuffer,
    k: usize,
    lost: &[u32],
    records: &mut Records,
) -> SendBuffer
    requires removable { Removable b lost.now k }
    requires front_bound { (b.front.0 < 2 ^ 31) × HasRoom 1 records.old }
    ensures { Drops k b lost.now records.old result records.new }
{
    let to = numbers::plus(b.front, k as u32);
    records.push(Record::plain(Kind::Drop, b.front.0, to.0, 0));
    b.remove(lost, k, b.bytes)
}

// Rule 6. The packet's payload is held from now on.
pub fn flush_on_close(
    b: SendBuffer,
    c: Settings,
    ring: &[u64],
    lost: &[u32],
    records: &mut Records,
) -> SendBuffer
    requires flushable { Flushable (settings_of c) (state b ring.now lost.now) }
    requires room { HasRoom 1 records.old }
    ensures { Wrote (flush_turn (settings_of c)) (state b ring.now lost.now) records.old (state result ring.now lost.now) records.new }
{
    let e = b.ring.entry(ring, 0);
    let gone = b.wire_sizes(c, ring, 1);
    let rest = b.remove(lost, 1, b.bytes - gone);
    records.push(send_record(Kind::Send, b.front, e));
    let held = FlushedPacket {
        number: b.front,
        slot: b.ring.slot,
        len: e.len as usize,
    };
    SendBuffer {
        flushed: Some(held),
        ..rest
    }
}
