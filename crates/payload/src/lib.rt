// Where a payload lies in the store: document 01, refusals 2, 3, 7 and 14. It takes any input.
#![tactic(auto)]

ghost use Rattle.std.specs.Prelude.{◌≡◌};
ghost use Rattle.sender.specs.SenderAndAreas.{books};
ghost use Rattle.payload.specs.Payload.{flushed_at, find_in, payload_verdict, payload};
ghost use Rattle.payload.specs.Payload.Laws.{HeldFits, Findable};

use buffer::FlushedPacket;
use rules_numbers::SeqNumber;
use rules_refusals::Refusal;
use sender::{Sender, judging};

// Where a payload lies in the store, and its length.
#[derive(Clone, Copy)]
pub struct Lies {
    pub place: usize,
    pub len: usize,
}

// The place of the flushed payload, if one is held and the number is its own.
fn flushed_at(size: usize, number: u32, flushed: Option<FlushedPacket>) -> Result<Lies, Refusal>
    requires { HeldFits size flushed }
    ensures { result ≡ flushed_at size number flushed }
{
    let held = flushed.ok_or(Refusal::NotHeld)?;
    if held.number.0 != number {
        return Err(Refusal::NotHeld);
    }
    Ok(Lies {
        place: held.slot * size,
        len: held.len,
    })
}

// Looks among the buffered packets, then at the flushed one.
fn find(s: Sender, number: u32, ring: &[u64]) -> Result<Lies, Refusal>
    requires { Findable s ring.now }
    ensures { result ≡ find_in s number ring.now }
{
    let size = s.settings.size as usize;
    let d = numbers::distance(s.buffer.front, SeqNumber(number)) as usize;
    if d < s.buffer.ring.len {
        return Ok(Lies {
            place: s.buffer.ring.slot_of(d) * size,
            len: s.buffer.ring.entry(ring, d).len as usize,
        });
    }
    flushed_at(size, number, s.buffer.flushed)
}

// Refuses BadStore, BadState and BadNumber.
#[tactic(auto, unfolding(crate::specs::Payload::payload_verdict))]
fn judge_payload(
    s: Sender,
    number: u32,
    ring: &[u64],
    lost: &[u32],
    store: usize,
) -> Result<(), Refusal>
    ensures { result ≡ payload_verdict (books s ring.now lost.now) number store }
{
    judging::judge_with_store(s, ring, lost, store)?;
    if 0x8000_0000 <= number {
        return Err(Refusal::BadNumber);
    }
    Ok(())
}

// Where the payload with this number lies in the store. Refuses BadStore, BadState, BadNumber and NotHeld.
#[tactic(auto, unfolding(crate::specs::Payload::payload))]
pub fn payload(
    s: Sender,
    number: u32,
    ring: &[u64],
    lost: &[u32],
    store: &[u8],
) -> Result<Lies, Refusal>
    ensures { result ≡ payload (books s ring.now lost.now) number store.now }
{
    judge_payload(s, number, ring, lost, store.len())?;
    find(s, number, ring)
}
