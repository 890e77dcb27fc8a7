// The loss list: a sorted array in the first `len` elements of a lent area, since there is no heap. Document 01, "Loss words", "ACK", "Run" 2
// and "Book rules"; the Rust's `lost_list`, a `BTreeSet` in `SendBuffer`. It is ordered by distance from the front,
// farthest first: what is resent or acknowledged is removed from the end, where no entry has to move.
#![tactic(auto)]

ghost use Rattle.std.specs.Prelude.{◌≡◌, ◌+◌, ◌-◌, ◌≤◌, ◌<◌, length, take, get_or};
ghost use Rattle.rules_numbers.specs.Modular.{seqs, dist};
ghost use Rattle.loss_list.specs.LossList.{entered, staying, in_order, keeps};
ghost use Rattle.loss_list.specs.LossList.Laws.{Fits, Left, written};

use rules_numbers::SeqNumber;

// Writes the `count` numbers from `first` on, so that they end before `end`, the last number first.
fn write_run(list: &mut [u32], end: usize, first: SeqNumber, count: u32)
    requires { (count ≤ end) × (end ≤ length list.old) }
    ensures { list.new ≡ written list.old (end - count) end first.0 count }
{
    // By index: the numbers go up as the places go down.
    for i in 0..count {
        list[end - 1 - i as usize] = numbers::plus(first, i).0;
    }
}

// Enters the `count` numbers from `first` on, each once, replacing those already there. Returns the list's new length.
// Area and length, no slice: the list grows into the room behind it (fixed memory).
pub fn enter(list: &mut [u32], len: usize, front: SeqNumber, first: SeqNumber, count: u32) -> usize
    requires { Fits len (entered (dist seqs front.0) first.0 count (take len list.old)) list.old }
    ensures { Left result list.new (entered (dist seqs front.0) first.0 count (take len list.old)) list.old }
{
    // how many entries lie at or beyond the run's first number, and how many beyond its last
    let near = remove_below(&list[..len], front, first);
    let far = remove_below(&list[..near], front, numbers::plus(first, count));
    let end = far + count as usize;
    list.copy_within(near..len, end);
    write_run(list, end, first, count);
    len + (end - near)
}

// The number nearest the front: the list's last entry.
pub fn nearest(list: &[u32]) -> SeqNumber
    requires { 0 < length list.now }
    ensures { result.0 ≡ get_or list.now (length list.now - 1) 0 }
{
    SeqNumber(list[list.len() - 1])
}

// The list's length without the numbers nearer the front than `x`. These are at its end, so the area stays as it is.
// Not inlined: in one body with `enter`'s move, what the walk keeps no longer fits the registers.
#[inline(never)]
pub fn remove_below(list: &[u32], front: SeqNumber, x: SeqNumber) -> usize
    ensures { result ≡ staying (dist seqs front.0) (dist seqs front.0 x.0) (length list.now) list.now }
{
    let k = numbers::distance(front, x);
    for n in (0..list.len()).rev() {
        if k <= numbers::distance(front, SeqNumber(list[n])) {
            return n + 1;
        }
    }
    0
}

fn in_order(high: u32, k: u32, y: u32) -> bool
    ensures { result ≡ in_order high k y }
{
    y < 0x8000_0000 && k < high
}

// Whether the list, of any elements, keeps the book rules of a loss list, with `sent` packets sent.
fn all_keep(list: &[u32], front: SeqNumber, sent: u32) -> bool
    ensures { result ≡ keeps front.0 sent (length list.now) list.now }
{
    let mut high = sent;
    for y in list {
        let k = numbers::distance(front, SeqNumber(*y));
        if !in_order(high, k, *y) {
            return false;
        }
        high = k;
    }
    true
}

// Whether the first `len` elements of any area keep them. Area and length, as docs/ promise it: C keeps the one and lends the
// other, and the length may pass the area.
pub fn keeps(list: &[u32], len: usize, front: SeqNumber, sent: u32) -> bool
    ensures { result ≡ keeps front.0 sent len list.now }
{
    len <= list.len() && all_keep(&list[..len], front, sent)
}
