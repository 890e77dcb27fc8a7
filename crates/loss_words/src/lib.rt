// The words of a loss report: document 01, "Loss words"; the Rust's `LossIterator` and its decompressed loss list.
#![tactic(auto)]

ghost use Rattle.std.specs.Prelude.{◌≡◌};
ghost use Rattle.rules.specs.Losses.{words_of};
ghost use Rattle.loss_words.specs.Words.{step_at, width_of, item_of, judged};

use rules_numbers::SeqNumber;
use rules_refusals::Refusal;

pub mod runs;

// What is at a place of the report: one number, a range with its inclusive last, a malformed item, or the end.
// Not a `Result`: `loss_reader::next` promises each of the four, and its place stays at the last two.
#[derive(Clone, Copy)]
pub enum Step {
    One(u32),
    Range(u32, u32),
    Bad,
    End,
}

// What is at index `at`. Words and a place, as docs/ promise it.
pub fn step_at(words: &[u32], at: usize) -> Step
    ensures { result ≡ step_at words.now at }
{
    let Some(&w) = words.get(at) else {
        return Step::End;
    };
    if w < 0x8000_0000 {
        return Step::One(w);
    }
    let Some(&last) = words.get(at + 1) else {
        return Step::Bad;
    };
    if 0x8000_0000 <= last {
        return Step::Bad;
    }
    let first = w - 0x8000_0000;
    if 0x4000_0000 <= numbers::distance(SeqNumber(first), SeqNumber(last)) {
        return Step::Bad;
    }
    Step::Range(first, last)
}

impl Step {
    // The first and the last number of the item; 0 if it is not an item.
    pub fn ends(self) -> (u32, u32)
        ensures { result ≡ ((item_of self).first, (item_of self).last) }
    {
        match self {
            Step::One(a) => (a, a),
            Step::Range(a, b) => (a, b),
            Step::Bad | Step::End => (0, 0),
        }
    }

    // How many words it takes; 0 if it is not an item.
    pub fn width(self) -> usize
        ensures { result ≡ width_of self }
    {
        match self {
            Step::One(_) => 1,
            Step::Range(_, _) => 2,
            Step::Bad | Step::End => 0,
        }
    }
}

// Reads a whole report.
pub fn judge(words: &[u32]) -> Result<usize, Refusal>
    ensures { result ≡ judged (words_of words.now) }
{
    if 512 < words.len() {
        return Err(Refusal::BadNak { index: 512 });
    }
    let mut at = 0;
    let mut n = 0;
    // Not a `for`: an item takes one word or two, and the reader of items, a crate above, answers with a `Step`.
    while at < words.len() {
        let width = step_at(words, at).width();
        if width < 1 {
            return Err(Refusal::BadNak { index: at as u32 });
        }
        at += width;
        n += 1;
    }
    Ok(n)
}
