// The answer to a loss report, in a lent list: three words for each run, its kind, its first number and its exclusive
// end. Runs are found from the ends of ranges, never number by number.
ghost use Rattle.std.specs.Prelude.{◌≡◌};
ghost use Rattle.rules.specs.Losses.{words_of, joined, items_of};
ghost use Rattle.loss_words.specs.Runs.{word_of, item_runs_at, runs_at};
ghost use Rattle.loss_words.specs.Runs.Laws.{Reaches};
ghost use Rattle.loss_words.specs.Runs.Lent.{Holds, HasRoom, goes_on, Pushed, Written, Accepted};

use rules_numbers::SeqNumber;

// The kind of a number, and its word in the list.
#[derive(Clone, Copy, Debug, PartialEq, Eq)]
pub enum Kind {
    Added = 1,
    Ignored = 2,
    Dropped = 3,
}

// The kind of a number, and how many numbers from it on have that kind.
#[derive(Clone, Copy)]
pub struct Loss {
    pub kind: Kind,
    pub count: u32,
}

// The kind and reach of the number `m`, with `sent` packets sent from the front on.
// Front and sent are the books'; a struct of the two for these calls would be no plainer.
pub fn loss_of(front: SeqNumber, sent: u32, m: SeqNumber) -> Loss
    ensures { Reaches front.0 sent m.0 (word_of result.kind) result.count }
{
    let past = numbers::distance(front, m);
    if past < sent {
        return Loss {
            kind: Kind::Added,
            count: sent - past,
        };
    }
    let ahead = numbers::distance(numbers::plus(front, sent), m);
    if ahead < 0x4000_0000 {
        return Loss {
            kind: Kind::Ignored,
            count: 0x4000_0000 - ahead,
        };
    }
    Loss {
        kind: Kind::Dropped,
        count: 0x8000_0000 - past,
    }
}

// The lent list for the answer, and how many runs it has.
// Its room is no invariant: it shrinks with each run, so each method asks for what it needs.
#[derive(Drop)]
struct Runs<'a> {
    list: &'a mut [u32],
    len: usize,
}

impl Runs<'_> {
    // Whether the last run continues into a run of `kind` from `first` on.
    fn goes_on(&self, kind: Kind, first: u32) -> bool
        requires { HasRoom 0 self.now }
        ensures { result ≡ goes_on self.now.list.now self.now.len (word_of kind) first }
    {
        if self.len < 1 {
            return false;
        }
        let at = 3 * self.len;
        self.list[at - 3] == kind as u32 && self.list[at - 1] == first
    }

    // Appends a run, or joins it to the last one: the three words that the list has for it.
    fn push(&mut self, kind: Kind, first: u32, end: u32)
        requires { HasRoom 1 self.old }
        ensures { Pushed self.old (word_of kind) first end self.new }
    {
        let at = 3 * self.len;
        if self.goes_on(kind, first) {
            self.list[at - 1] = end;
            return;
        }
        self.list[at] = kind as u32;
        self.list[at + 1] = first;
        self.list[at + 2] = end;
        self.len += 1;
    }

    // Writes the runs of one item, at most three.
    fn write_item(&mut self, front: SeqNumber, sent: u32, first: SeqNumber, last: SeqNumber)
        requires { HasRoom 3 self.old }
        ensures { Written self.old (item_runs_at front.0 sent (record { first = first.0; last = last.0 })) self.new }
    {
        let mut m = first;
        let mut k = numbers::distance(first, last) + 1;
        for _ in 0..3usize {
            if k < 1 {
                return;
            }
            let loss = loss_of(front, sent, m);
            let count = k.min(loss.count);
            let end = numbers::plus(m, count);
            self.push(loss.kind, m.0, end.0);
            m = end;
            k -= count;
        }
    }
}

// Writes the answer to a well-formed report. Returns how many runs there are.
pub fn write_runs(words: &[u32], front: SeqNumber, sent: u32, out: &mut [u32]) -> usize
    requires { Accepted words.now out.old }
    ensures { Holds result (joined (runs_at front.0 sent (items_of (words_of words.now)))) out.old out.new }
{
    let mut runs = Runs { list: out, len: 0 };
    let mut at = 0;
    // Not a `for`: an item takes one word or two, and the reader of items, a crate above, answers with a `Step`.
    while at < words.len() {
        let step = crate::step_at(words, at);
        let (first, last) = step.ends();
        runs.write_item(front, sent, SeqNumber(first), SeqNumber(last));
        at += step.width();
    }
    runs.len
}
