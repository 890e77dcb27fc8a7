// The sender's run: document 01, "Run", with refusals 2, 3, 4 and 13. It takes any input and works in lent areas.
#![tactic(auto)]

ghost use Rattle.std.specs.Prelude.{◌≡◌};
ghost use Rattle.sender.specs.SenderAndAreas.{books};
ghost use Rattle.run.specs.Runs.{room_for, run_verdict, runs, run};

use rules_numbers::TIME_LIMIT;
use rules_refusals::Refusal;
use sender::{Sender, judging};

// How many bytes the list of records must have room for.
fn room_for(budget: u32, buffered: usize) -> usize
    ensures { result ≡ room_for budget buffered }
{
    ((budget as usize).min(buffered) + 3) * 24
}

// Refuses BadStore, BadState, BadTime and NoRoom.
#[tactic(auto, unfolding(crate::specs::Runs::run_verdict, sender::specs::SenderAndAreas::judge_areas))]
fn judge_run(
    s: Sender,
    ts_now: u64,
    budget: u32,
    ring: &[u64],
    lost: &[u32],
    out: usize,
) -> Result<(), Refusal>
    ensures { result ≡ run_verdict (books s ring.now lost.now) ts_now budget out }
{
    judging::judge_areas(s, ring, lost)?;
    if TIME_LIMIT <= ts_now {
        return Err(Refusal::BadTime);
    }
    if out < room_for(budget, s.buffer.len()) {
        return Err(Refusal::NoRoom);
    }
    Ok(())
}

// A run at `ts_now`, with a budget of packets to send: records of what to send, drop and wait for. Ok holds the sender,
// how many records there are, and the budget left. If it is refused, the caller's sender and the areas are as before.
#[tactic(auto, unfolding(crate::specs::Runs::run))]
pub fn run(
    s: Sender,
    ts_now: u64,
    budget: u32,
    draining: bool,
    ring: &mut [u64],
    lost: &[u32],
    out: &mut [u8],
) -> Result<(Sender, usize, u32), Refusal>
    ensures { runs result ring.new lost.now out.new
        ≡ run (books s ring.old lost.now) ts_now budget draining out.old }
{
    judge_run(s, ts_now, budget, ring, lost, out.len())?;
    let r = buffer_run::next_snd_actions(
        s.buffer, s.settings, ts_now, budget, draining, ring, lost, out,
    );
    Ok((
        Sender {
            buffer: r.buffer,
            ..s
        },
        r.records,
        r.left,
    ))
}
