// A reader of loss words: document 01, "The decompressed loss iterator becomes a reader that holds the lent words and
// its place". `loss_words::step_at` reads the item at a place.
#![tactic(auto)]

ghost use Rattle.std.specs.Prelude.{◌≡◌, length};
ghost use Rattle.loss_reader.specs.Reading.{start, here, moved, counts};

use loss_words::Step;

// The words of a report, and the index of the first word not read yet.
#[derive(Drop)]
pub struct LossReader<'a> {
    pub words: &'a [u32],
    pub at: usize,
}

impl<'a> LossReader<'a> {
    // A reader at the first word.
    pub fn new(words: &'a [u32]) -> LossReader<'a>
        ensures { result ≡ start words.entry }
    {
        LossReader { words, at: 0 }
    }

    // Reads what is at its place. The reader moves past an item; if there is none, it stays.
    pub fn next<'s>(&'s mut self) -> Step
        ensures { (result ≡ here self.old) × (self.new ≡ moved self.old) }
    {
        let step = loss_words::step_at(self.words, self.at);
        self.at += step.width();
        step
    }
}

// How many items come before the first bad one, or in the whole report if none is bad.
pub fn count(words: &[u32]) -> usize
    ensures { result ≡ counts (length words.now) (start words.entry) }
{
    let mut reader = LossReader::new(words);
    let mut n = 0;
    // Not a `for`: `next` promises a `Step`, also where there is no item.
    while 0 < reader.next().width() {
        n += 1;
    }
    n
}
