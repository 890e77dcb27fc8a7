// Rules 2 and 3: document 01, "Send the number on the loss list nearest the front, removing it there." and "Resend the
// packet with the earliest resend time strictly before now".
ghost use Rattle.std.specs.Prelude.{◌^◌, ◌<◌};
ghost use Rattle.buffer.specs.State.{state};
ghost use Rattle.run_effects.specs.Sending.{HasRoom, Wrote, Acts, loss_turn, due_turn};
ghost use Rattle.run_effects.specs.Sending.Rules.{Standing, Losing};

use crate::Records;
use crate::packet::send_packet;
use action_records::Kind;
use buffer::SendBuffer;

// Rule 2.
pub fn send_next_lost_packet(
    b: SendBuffer,
    ts_now: u64,
    ring: &mut [u64],
    lost: &[u32],
    records: &mut Records,
) -> SendBuffer
    requires losing { Losing b ts_now ring.old lost.now }
    requires room { HasRoom 1 records.old }
    ensures { Wrote (loss_turn ts_now) (state b ring.old lost.now) records.old (state result ring.new lost.now) records.new }
{
    let nearest = loss_list::nearest(&lost[..b.lost]);
    let i = numbers::distance(b.front, nearest) as usize;
    let rest = SendBuffer {
        lost: b.lost - 1,
        ..b
    };
    send_packet(rest, Kind::RetransmitNak, ts_now, i, b.sent, ring, records)
}

// Rule 3, for packet `i` from the front. One call of `send_packet`, as rule 5's: one function of both would be no plainer.
pub fn send_next_rto_packet(
    b: SendBuffer,
    ts_now: u64,
    i: usize,
    ring: &mut [u64],
    records: &mut Records,
) -> SendBuffer
    requires standing { Standing b ring.old }
    requires i_lt_len { (i < b.ring.len) × (ts_now < 2 ^ 48) × HasRoom 1 records.old }
    ensures { Acts (due_turn ts_now i) b ring.old records.old result ring.new records.new }
{
    send_packet(b, Kind::RetransmitRto, ts_now, i, b.sent, ring, records)
}
