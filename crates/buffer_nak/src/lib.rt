// A loss report on the send buffer: document 01, "Loss words"; the Rust's `add_to_loss_list`.
#![tactic(auto)]

ghost use Rattle.std.specs.Prelude.{◌≡◌, take};
ghost use Rattle.loss_list.specs.LossList.Laws.{Fits, Left};
ghost use Rattle.buffer_nak.specs.Report.{enter_run, left, add};
ghost use Rattle.buffer_nak.specs.Report.Laws.{entered_to, Readable, Reportable};

use buffer::SendBuffer;
use loss_words::runs::Kind;
use rules_numbers::SeqNumber;

// The books afterwards, and how many runs the answer has.
#[derive(Clone, Copy)]
pub struct Reported {
    pub buffer: SendBuffer,
    pub runs: usize,
}

// Enters the numbers of a run into the loss list if they are Added. Returns the list's new length. The kind is a number,
// as it stands in C's list; area and length are `loss_list::enter`'s.
fn enter_run(
    lost: &mut [u32],
    len: usize,
    front: SeqNumber,
    kind: u32,
    first: u32,
    end: u32,
) -> usize
    requires { Fits len (enter_run front.0 kind first end (take len lost.old)) lost.old }
    ensures { Left result lost.new (enter_run front.0 kind first end (take len lost.old)) lost.old }
{
    if kind == Kind::Added as u32 {
        let count = numbers::distance(SeqNumber(first), SeqNumber(end));
        return loss_list::enter(lost, len, front, SeqNumber(first), count);
    }
    len
}

// Enters the Added numbers of the `count` runs in `runs`, three words each, as C has them. Returns the list's new length.
fn enter_runs(runs: &[u32], count: usize, front: SeqNumber, lost: &mut [u32], len: usize) -> usize
    requires { Readable runs.now count front.0 len lost.old }
    ensures { Left result lost.new (entered_to front.0 runs.now count (take len lost.old)) lost.old }
{
    let mut n = len;
    for run in runs[..3 * count].chunks_exact(3) {
        n = enter_run(lost, n, front, run[0], run[1], run[2]);
    }
    n
}

// Enters the Added numbers of a well-formed report into the loss list, and writes the runs of the answer to `out`. The
// cost is one pass over the list per run, plus the numbers Added; it doesn't grow with the width of a range.
pub fn add_to_loss_list(b: SendBuffer, words: &[u32], lost: &mut [u32], out: &mut [u32]) -> Reported
    requires { Reportable b words.now lost.old out.old }
    ensures { left result lost.new out.new ≡ add b words.now lost.old out.old }
{
    let runs = loss_words::runs::write_runs(words, b.front, b.sent, out);
    let n = enter_runs(out, runs, b.front, lost, b.lost);
    Reported {
        buffer: SendBuffer { lost: n, ..b },
        runs,
    }
}
