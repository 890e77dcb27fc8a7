// A loss report: document 01, "Loss words", refusals 2, 3, 12 and 13. It takes any input.
#![tactic(auto)]

ghost use Rattle.std.specs.Prelude.{◌≡◌, ◌/◌};
ghost use Rattle.rules.specs.Losses.{words_of};
ghost use Rattle.rules.specs.Refusals.{words_verdict};
ghost use Rattle.sender.specs.SenderAndAreas.{books};
ghost use Rattle.nak.specs.Naks.{nak_verdict, naks, nak};

use rules_refusals::Refusal;
use sender::{Sender, judging};

// Refuses BadNak and NoRoom: each item needs room for three runs of three words.
fn judge_words(words: &[u32], room: usize) -> Result<(), Refusal>
    ensures { result ≡ words_verdict (words_of words.now) (room / 3) }
{
    let items = loss_words::judge(words)?;
    if room / 9 < items {
        return Err(Refusal::NoRoom);
    }
    Ok(())
}

// Refuses BadStore, BadState, BadNak and NoRoom.
#[tactic(auto, unfolding(crate::specs::Naks::nak_verdict))]
fn judge_nak(
    s: Sender,
    words: &[u32],
    ring: &[u64],
    lost: &[u32],
    room: usize,
) -> Result<(), Refusal>
    ensures { result ≡ nak_verdict (books s ring.now lost.now) words.now room }
{
    judging::judge_areas(s, ring, lost)?;
    judge_words(words, room)
}

// A loss report; the runs of the answer go to `out`, and Ok says how many they are. Refuses BadStore, BadState, BadNak
// and NoRoom; then the caller's sender and the areas are as before.
#[tactic(auto, unfolding(crate::specs::Naks::nak))]
pub fn nak(
    s: Sender,
    words: &[u32],
    ring: &[u64],
    lost: &mut [u32],
    out: &mut [u32],
) -> Result<(Sender, usize), Refusal>
    ensures { naks result lost.new out.new
        ≡ nak (books s ring.now lost.old) words.now out.old }
{
    judge_nak(s, words, ring, lost, out.len())?;
    let r = buffer_nak::add_to_loss_list(s.buffer, words, lost, out);
    Ok((
        Sender {
            buffer: r.buffer,
            ..s
        },
        r.runs,
    ))
}
