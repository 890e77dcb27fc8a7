// The sender's calls: document 01, "Sending rules"; the Rust's sender/mod.rs. Each takes any input; the module judging
// decides what is refused. The areas they work in are lent for each call, as parameters of their own: which of them a call
// writes differs, and one struct of all would ask more of callers.
//   new, message, ack   the calls, on `Sender`
//   push                a message that no test refuses
//   acknowledge         an ACK's answer
#![tactic(auto)]

ghost use Rattle.std.specs.Prelude.{◌≡◌};
ghost use Rattle.sender.specs.SenderAndAreas.{books};
ghost use Rattle.sender.specs.Acks.{acknowledged, ack};
ghost use Rattle.sender.specs.Calls.{made, area, done, message};
ghost use Rattle.sender.specs.Calls.Laws.{Pushable};

use crate::judging::{judge_ack, judge_message};
use buffer::{SendBuffer, Settings};
use buffer_ack::AckAction;
use rules_numbers::{Rtt, SeqNumber};
use rules_pacing::{LiveBandwidthMode, SenderCongestionControl};
use rules_refusals::Refusal;

pub mod judging;

// Everything that a sender keeps besides the lent areas.
#[derive(Clone, Copy)]
pub struct Sender {
    pub settings: Settings,
    pub buffer: SendBuffer,
    pub pacing: SenderCongestionControl,
}

// What an accepted message did: packets made, packets removed, wire bytes removed, and any new period.
#[derive(Clone, Copy)]
pub struct Answer {
    pub made: usize,
    pub removed: usize,
    pub bytes: u64,
    pub period: Option<u64>,
}

// A message that no test refuses.
fn push(
    s: Sender,
    time: u64,
    now_: u64,
    payload: &[u8],
    ring: &mut [u64],
    lost: &[u32],
    store: &mut [u8],
) -> Result<(Sender, Answer), Refusal>
    requires { Pushable (books s ring.old lost.now) time now_ payload.now store.old }
    ensures { area result ring.new lost.now store.new
        ≡ done (books s ring.old lost.now) time now_ payload.now store.old }
{
    let p = buffer_push::push_message(s.buffer, s.settings, time, payload, ring, lost, store);
    let (period, pacing) = pacing::on_input(s.pacing, now_, p.made as u64, payload.len() as u64)?;
    Ok((
        Sender {
            buffer: p.buffer,
            pacing,
            ..s
        },
        Answer {
            made: p.made,
            removed: p.removed,
            bytes: p.bytes,
            period,
        },
    ))
}

// The sender with the books after an ACK.
fn acknowledge(
    s: Sender,
    acked: Result<(SendBuffer, AckAction), (SendBuffer, Refusal)>,
) -> Result<(Sender, AckAction), (Sender, Refusal)>
    ensures { result ≡ acknowledged s acked }
{
    acked
        .map(|(buffer, action)| (Sender { buffer, ..s }, action))
        .map_err(|(buffer, r)| (Sender { buffer, ..s }, r))
}

impl Sender {
    // A new sender. Refuses BadSetting.
    #[tactic(auto, unfolding(crate::specs::Calls::made, rules::specs::Refusals::new_verdict, rules_pacing::specs::Kept::new))]
    pub fn new(settings: Settings, mode: LiveBandwidthMode) -> Result<Sender, Refusal>
        ensures { result ≡ made settings mode }
    {
        if !book_rules::settings_in_range(settings) {
            return Err(Refusal::BadSetting);
        }
        let pacing = pacing::new(mode)?;
        Ok(Sender {
            settings,
            buffer: SendBuffer::new(settings),
            pacing,
        })
    }

    // A message with its time, pushed at `now_`. Refuses BadStore, BadState, BadTime, TooLong and CountFull; then the
    // caller's sender and the areas are as before.
    #[tactic(auto, unfolding(crate::specs::Calls::message))]
    pub fn message(
        self,
        time: u64,
        now_: u64,
        payload: &[u8],
        ring: &mut [u64],
        lost: &[u32],
        store: &mut [u8],
    ) -> Result<(Sender, Answer), Refusal>
        ensures { area result ring.new lost.now store.new
            ≡ message (books self ring.old lost.now) time now_ payload.now store.old }
    {
        judge_message(self, time, now_, payload.len(), ring, lost, store.len())?;
        push(self, time, now_, payload, ring, lost, store)
    }

    // An ACK with its full number and round-trip time, if it has them. Refuses BadStore, BadState, BadNumber, BadRtt,
    // Empty, InvalidAck and StaleFullAck. Err holds the sender too, since StaleFullAck keeps a new round-trip time.
    pub fn ack(
        self,
        ack_number: u32,
        full_ack: Option<u32>,
        rtt: Option<Rtt>,
        ring: &[u64],
        lost: &[u32],
    ) -> Result<(Sender, AckAction), (Sender, Refusal)>
        ensures { result ≡ ack (books self ring.now lost.now) ack_number full_ack rtt }
    {
        judge_ack(self, ack_number, rtt, ring, lost).map_err(|r| (self, r))?;
        let acked = buffer_ack::update_largest_acked_seq_number(
            self.buffer,
            self.settings,
            SeqNumber(ack_number),
            full_ack,
            rtt,
            ring,
            lost,
        );
        acknowledge(self, acked)
    }
}
