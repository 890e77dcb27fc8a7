// The sender's calls: document 01, "Refusal numbers" and "Sending rules". The kept state goes in and comes back as
// numbers; a refused call returns what it was given.
ghost use Rattle.std.specs.Prelude.{◌≡◌};
ghost use Rattle.sender.specs.Calls.{made};
ghost use Rattle.host_structs.specs.Senders.{mode_of};
ghost use Rattle.host_structs.specs.Replies.{new_of, payload_of, reports_of, full_of, rtt_of};
ghost use Rattle.phelgomrit.specs.Entries.{messaged, message, ack, reported, nak, ran, run, payload, reports};

use buffer::Settings;
use host_structs::acks::AckAnswer;
use host_structs::questions::{PayloadAnswer, ReportsAnswer};
use host_structs::replies::{MessageAnswer, NakAnswer, RunAnswer};
use host_structs::senders::FlatSender;
use host_structs::starts::NewAnswer;
use rules_numbers::Rtt;
use sender::Sender;

// A new sender.
pub fn phel_entry_new(settings: Settings, mode: u32, rate: u64, overhead: u64) -> NewAnswer
    ensures { result ≡ new_of (made settings (mode_of mode rate overhead)) }
{
    let mode = host_structs::pacings::mode_of(mode, rate, overhead);
    NewAnswer::from(Sender::new(settings, mode))
}

// A message with its time, pushed at `ts_now`.
#[tactic(auto, unfolding(crate::specs::Entries::message))]
pub fn phel_entry_message(
    given: FlatSender,
    time: u64,
    ts_now: u64,
    payload: &[u8],
    ring: &mut [u64],
    lost: &[u32],
    store: &mut [u8],
) -> MessageAnswer
    ensures { messaged result ring.new lost.now store.new
        ≡ message given time ts_now payload.now ring.old lost.now store.old }
{
    let s = Sender::from(given);
    let answer = s.message(time, ts_now, payload, ring, lost, store);
    host_structs::replies::message_answer(given, answer)
}

// An ACK; `full` says whether it has a full number, `measured` whether it has a round-trip time.
#[tactic(auto, unfolding(crate::specs::Entries::ack))]
pub fn phel_entry_ack(
    given: FlatSender,
    ack_number: u32,
    full: bool,
    full_number: u32,
    measured: bool,
    rtt: Rtt,
    ring: &[u64],
    lost: &[u32],
) -> AckAnswer
    ensures { result ≡ ack given ack_number (full_of full full_number) (rtt_of measured rtt) ring.now lost.now }
{
    let s = Sender::from(given);
    let full_ack = full.then_some(full_number);
    let brought = measured.then_some(rtt);
    let answer = s.ack(ack_number, full_ack, brought, ring, lost);
    host_structs::acks::ack_answer(given, answer)
}

// A loss report; the runs of the answer are written to `out`.
#[tactic(auto, unfolding(crate::specs::Entries::nak))]
pub fn phel_entry_nak(
    given: FlatSender,
    words: &[u32],
    ring: &[u64],
    lost: &mut [u32],
    out: &mut [u32],
) -> NakAnswer
    ensures { reported result lost.new out.new
        ≡ nak given words.now ring.now lost.old out.old }
{
    let answer = nak::nak(Sender::from(given), words, ring, lost, out);
    host_structs::replies::nak_answer(given, answer)
}

// A run at `ts_now`; the records are written to `out`.
#[tactic(auto, unfolding(crate::specs::Entries::run))]
pub fn phel_entry_run(
    given: FlatSender,
    ts_now: u64,
    budget: u32,
    draining: bool,
    ring: &mut [u64],
    lost: &[u32],
    out: &mut [u8],
) -> RunAnswer
    ensures { ran result ring.new lost.now out.new
        ≡ run given ts_now budget draining ring.old lost.now out.old }
{
    let s = Sender::from(given);
    let answer = run::run(s, ts_now, budget, draining, ring, lost, out);
    host_structs::replies::run_answer(given, answer)
}

// Where the payload with this number lies in the store.
pub fn phel_entry_payload(
    given: FlatSender,
    number: u32,
    ring: &[u64],
    lost: &[u32],
    store: &[u8],
) -> PayloadAnswer
    ensures { result ≡ payload_of (payload given number ring.now lost.now store.now) }
{
    let s = Sender::from(given);
    PayloadAnswer::from(payload::payload(s, number, ring, lost, store))
}

// The reports.
pub fn phel_entry_reports(given: FlatSender, ring: &[u64], lost: &[u32]) -> ReportsAnswer
    ensures { result ≡ reports_of (reports given ring.now lost.now) }
{
    ReportsAnswer::from(reports::reports(Sender::from(given), ring, lost))
}
