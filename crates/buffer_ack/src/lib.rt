// An ACK on the send buffer: document 01, "ACK", and refusals 9 to 11; the Rust's `update_largest_acked_seq_number`.
// The parts of an ACK are parameters, as the sender's call and C's entry take them.
#![tactic(auto)]

ghost use Rattle.std.specs.Prelude.{◌≡◌, Ok};
ghost use Rattle.rules.specs.Refusals.{full_verdict};
ghost use Rattle.buffer.specs.State.{settings_of, state};
ghost use Rattle.buffer_ack.specs.Ack.{judge, done, update};
ghost use Rattle.buffer_ack.specs.Ack.Laws.{Acceptable, Asked};

use buffer::{SendBuffer, Settings};
use rules_numbers::{Rtt, SeqNumber};
use rules_refusals::Refusal;

// What an accepted ACK did: packets acknowledged, how many of them were on the loss list, and the ACK's full number.
#[derive(Clone, Copy)]
pub struct AckAction {
    pub received: u32,
    pub recovered: u32,
    pub send_ack2: Option<u32>,
}

// Refuses Empty and InvalidAck.
#[tactic(auto, unfolding(crate::specs::Ack::judge))]
fn judge(b: SendBuffer, ack_number: SeqNumber) -> Result<(), Refusal>
    ensures { result ≡ judge b.ring.len b.front b.sent ack_number }
{
    if b.len() == 0 {
        return Err(Refusal::Empty);
    }
    if b.sent < numbers::distance(b.front, ack_number) {
        return Err(Refusal::InvalidAck {
            ack_number,
            first: b.front,
            next: numbers::plus(b.front, b.sent),
        });
    }
    Ok(())
}

// Refuses StaleFullAck.
#[tactic(auto, unfolding(rules::specs::Refusals::full_verdict))]
fn judge_full(full_ack: Option<u32>, expected: u64) -> Result<(), Refusal>
    ensures { result ≡ full_verdict full_ack expected }
{
    match full_ack {
        Some(n) if (n as u64) < expected => Err(Refusal::StaleFullAck {
            received_full_ack: n,
            next_full_ack: expected,
        }),
        _ => Ok(()),
    }
}

// Acknowledges the `d` packets at the front.
fn acknowledge(
    b: SendBuffer,
    c: Settings,
    d: u32,
    full_ack: Option<u32>,
    ring: &[u64],
    lost: &[u32],
) -> (SendBuffer, AckAction)
    requires { Acceptable (settings_of c) (state b ring.now lost.now) d }
    ensures { Ok result ≡ done (settings_of c) d full_ack (state b ring.now lost.now) }
{
    let gone = b.wire_sizes(c, ring, d as usize);
    let after = b.remove(lost, d as usize, b.bytes - gone);
    let recovered = (b.lost - after.lost) as u32;
    (
        SendBuffer {
            expected: full_ack.map_or(after.expected, |n| n as u64 + 1),
            ..after
        },
        AckAction {
            received: d,
            recovered,
            send_ack2: full_ack,
        },
    )
}

// Takes an ACK of `ack_number`, which may lie from the front to next unsent, inclusive. A refusal too comes with the
// books: those of a stale full number have the ACK's round-trip time, those of any other refusal are unchanged. The lent
// areas are only read.
pub fn update_largest_acked_seq_number(
    b: SendBuffer,
    c: Settings,
    ack_number: SeqNumber,
    full_ack: Option<u32>,
    rtt: Option<Rtt>,
    ring: &[u64],
    lost: &[u32],
) -> Result<(SendBuffer, AckAction), (SendBuffer, Refusal)>
    requires { Asked (settings_of c) (state b ring.now lost.now) ack_number.0 rtt }
    ensures { result ≡ update (settings_of c) ack_number full_ack rtt (state b ring.now lost.now) }
{
    judge(b, ack_number).map_err(|refusal| (b, refusal))?;
    let taken = SendBuffer {
        rtt: rtt.unwrap_or(b.rtt),
        ..b
    };
    judge_full(full_ack, taken.expected).map_err(|refusal| (taken, refusal))?;
    let d = numbers::distance(b.front, ack_number);
    Ok(acknowledge(taken, c, d, full_ack, ring, lost))
}
