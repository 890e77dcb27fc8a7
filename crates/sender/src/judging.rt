// The tests that refuse a call of the sender: document 01, "Refusal numbers", 2 to 8. The crates above use 2 and 3 too.
//   judge_areas, judge_with_store              2 and 3, for the areas that a call is lent
//   count_is_full, judge_input, judge_message  6; 4 to 6; and all tests of a message
//   rtt_is_bad, judge_ack                      8; and all tests of an ACK but 9 to 11
ghost use Rattle.std.specs.Prelude.{◌≡◌, ◌≤◌};
ghost use Rattle.rules.specs.Refusals.{bad_rtt};
ghost use Rattle.buffer.specs.State.{settings_of};
ghost use Rattle.sender.specs.SenderAndAreas.{books, areas_short, store_short, kept, judge_areas};
ghost use Rattle.sender.specs.Acks.{ack_verdict};
ghost use Rattle.sender.specs.Calls.{judge_with_store, count_is_full, input_verdict, message_verdict};
ghost use Rattle.sender.specs.Calls.Laws.{Counting};

use crate::Sender;
use buffer::Settings;
use rules_numbers::{BYTES_LIMIT, LENGTH_MOST, Rtt, TIME_LIMIT};
use rules_refusals::Refusal;

// Whether the ring's area or the loss list's is too short for the capacity.
#[tactic(auto, unfolding(crate::specs::SenderAndAreas::areas_short))]
fn areas_short(c: Settings, ring: usize, lost: usize) -> bool
    ensures { result ≡ areas_short (settings_of c) ring lost }
{
    let cap = c.capacity() as usize;
    book_rules::settings_in_range(c) && (ring < cap * 6 || lost < cap)
}

// Whether the store is too short for the capacity.
#[tactic(auto, unfolding(crate::specs::SenderAndAreas::store_short))]
fn store_short(c: Settings, store: usize) -> bool
    ensures { result ≡ store_short (settings_of c) store }
{
    book_rules::settings_in_range(c) && store < c.capacity() as usize * c.size as usize
}

// Whether the books keep the book rules.
#[tactic(auto, unfolding(crate::specs::SenderAndAreas::kept))]
fn kept(s: Sender, ring: &[u64], lost: &[u32]) -> bool
    ensures { result ≡ kept (books s ring.now lost.now) }
{
    book_rules::kept(s.buffer, s.settings, ring, lost) && pacing::kept(s.pacing)
}

// Refuses BadStore and BadState, for a call that is lent only the ring and the loss list.
#[tactic(auto, unfolding(crate::specs::SenderAndAreas::judge))]
pub fn judge_areas(s: Sender, ring: &[u64], lost: &[u32]) -> Result<(), Refusal>
    ensures { result ≡ judge_areas (books s ring.now lost.now) }
{
    if areas_short(s.settings, ring.len(), lost.len()) {
        return Err(Refusal::BadStore);
    }
    if !kept(s, ring, lost) {
        return Err(Refusal::BadState);
    }
    Ok(())
}

// Refuses BadStore and BadState, for a call that is also lent a store of this many bytes.
#[tactic(auto, unfolding(crate::specs::SenderAndAreas::judge))]
pub fn judge_with_store(s: Sender, ring: &[u64], lost: &[u32], store: usize) -> Result<(), Refusal>
    ensures { result ≡ judge_with_store (books s ring.now lost.now) store }
{
    if store_short(s.settings, store) {
        return Err(Refusal::BadStore);
    }
    judge_areas(s, ring, lost)
}

// Row 6: whether the byte count, with this message's wire sizes, or what pacing counts would pass its limit.
fn count_is_full(s: Sender, now_: u64, n: usize) -> bool
    requires { Counting s × (n ≤ 1_048_576) }
    ensures { result ≡ count_is_full s now_ n }
{
    let k = encapsulate::count(n, s.settings.size as usize) as u64;
    let sum = s.buffer.bytes + n as u64 + k * s.settings.overhead as u64;
    BYTES_LIMIT <= sum || pacing::count_full(s.pacing, now_, k, n as u64)
}

// Refuses BadTime, TooLong and CountFull.
#[tactic(auto, unfolding(crate::specs::Calls::input_verdict))]
fn judge_input(s: Sender, time: u64, now_: u64, n: usize) -> Result<(), Refusal>
    requires { Counting s }
    ensures { result ≡ input_verdict s time now_ n }
{
    if TIME_LIMIT <= time || TIME_LIMIT <= now_ {
        return Err(Refusal::BadTime);
    }
    if LENGTH_MOST < n {
        return Err(Refusal::TooLong);
    }
    if count_is_full(s, now_, n) {
        return Err(Refusal::CountFull);
    }
    Ok(())
}

// Refuses BadStore, BadState, BadTime, TooLong and CountFull.
#[tactic(auto, unfolding(crate::specs::Calls::message_verdict))]
pub(crate) fn judge_message(
    s: Sender,
    time: u64,
    now_: u64,
    n: usize,
    ring: &[u64],
    lost: &[u32],
    store: usize,
) -> Result<(), Refusal>
    ensures { result ≡ message_verdict (books s ring.now lost.now) time now_ n store }
{
    judge_with_store(s, ring, lost, store)?;
    judge_input(s, time, now_, n)
}

fn rtt_is_bad(rtt: Option<Rtt>) -> bool
    ensures { result ≡ bad_rtt rtt }
{
    rtt.is_some_and(|brought| !rtt::in_range(brought))
}

// Refuses BadStore, BadState, BadNumber and BadRtt.
#[tactic(auto, unfolding(crate::specs::Acks::ack_verdict))]
pub(crate) fn judge_ack(
    s: Sender,
    ack_number: u32,
    rtt: Option<Rtt>,
    ring: &[u64],
    lost: &[u32],
) -> Result<(), Refusal>
    ensures { result ≡ ack_verdict (books s ring.now lost.now) ack_number rtt }
{
    judge_areas(s, ring, lost)?;
    if 0x8000_0000 <= ack_number {
        return Err(Refusal::BadNumber);
    }
    if rtt_is_bad(rtt) {
        return Err(Refusal::BadRtt);
    }
    Ok(())
}
