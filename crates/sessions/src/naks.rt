// A loss report of up to ten words.
use crate::Areas;
use crate::show::answered;
use sender::Sender;
use std::io;
use stored::{Record, at_most, high, low};

const WORDS_MOST: usize = 10;

// Not a `From`: neither type is this crate's.
fn words(r: Record) -> [u32; WORDS_MOST] {
    [
        low(r.b),
        high(r.b),
        low(r.c),
        high(r.c),
        low(r.d),
        high(r.d),
        low(r.e),
        high(r.e),
        low(r.f),
        high(r.f),
    ]
}

// A run's kind, which is a number in C's list, its first number and its end.
fn show_run(rt: &impl Print, run: [u32; 3]) -> io::Result<()> {
    let [kind, first, end] = run;
    let name = match kind {
        1 => "added",
        2 => "ignored",
        _ => "dropped",
    };
    print!(rt; "\n  {name} {first} {end}")
}

fn report(
    rt: &impl Print,
    s: &mut Sender,
    words: &[u32],
    areas: &mut Areas,
    out: &mut [u32],
) -> io::Result<()> {
    let answer = nak::nak(*s, words, &areas.ring, &mut areas.lost, out);
    if let Some((t, runs)) = answered(rt, answer)? {
        *s = t;
        print!(rt; "runs {runs}")?;
        let (given, _) = out.as_chunks::<3>();
        for run in given.iter().take(runs) {
            show_run(rt, *run)?;
        }
    }
    Ok(())
}

// There is room for 30 runs, or for two.
pub(crate) fn call(
    rt: &impl Print,
    s: &mut Sender,
    r: Record,
    areas: &mut Areas,
) -> io::Result<()> {
    let given = at_most(r.a, WORDS_MOST);
    let room = if r.g == 1 { 6 } else { 90 };
    let mut out = [0u32; 90];
    report(rt, s, &words(r)[..given], areas, &mut out[..room])
}
