// The reports on the buffer: document 01, "What the hub takes from the crate", refusals 2 and 3. It takes any input.
#![tactic(auto)]

ghost use Rattle.std.specs.Prelude.{◌≡◌};
ghost use Rattle.sender.specs.SenderAndAreas.{books};
ghost use Rattle.reports.specs.Reports.{reports};

use rules_refusals::Refusal;
use sender::{Sender, judging};

// Whether nothing is buffered and the loss list is empty; whether a packet is unsent or a number is on the loss list;
// how many packets are buffered; the byte count; and the back's time less the front's.
#[derive(Clone, Copy)]
pub struct BufferReports {
    pub is_flushed: bool,
    pub has_packets_to_send: bool,
    pub len: usize,
    pub len_bytes: u64,
    pub duration: u64,
}

// The reports. Refuses BadStore and BadState.
#[tactic(auto, unfolding(crate::specs::Reports::reports))]
pub fn reports(s: Sender, ring: &[u64], lost: &[u32]) -> Result<BufferReports, Refusal>
    ensures { result ≡ reports (books s ring.now lost.now) }
{
    judging::judge_areas(s, ring, lost)?;
    Ok(BufferReports {
        is_flushed: s.buffer.is_flushed(),
        has_packets_to_send: s.buffer.has_packets_to_send(),
        len: s.buffer.len(),
        len_bytes: s.buffer.len_bytes(),
        duration: s.buffer.duration(ring),
    })
}
