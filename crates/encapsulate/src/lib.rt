// How a message becomes packets, and the header of each: document 01, "Message" and "Header"; the Rust's encapsulate.rs. The buffer keeps
// what the Rust's `Encapsulation` keeps, the next message number and the next sequence number. Length and size are parameters side by
// side: the calls that docs/ names take them so.
#![tactic(auto)]

ghost use Rattle.std.specs.Prelude.{◌≡◌, ◌≤◌, ◌<◌};
ghost use Rattle.rules_packets.specs.Header.{place_bits, second, header, stamp};
ghost use Rattle.rules_packets.specs.Split.{judge, split, place_of, piece_of, piece};
ghost use Rattle.encapsulate.specs.Laws.{Sized, Counted, Cut};

use rules_numbers::{LENGTH_MOST, MsgNumber, SIZE_MOST, SeqNumber};
use rules_packets::{Piece, Place};
use rules_refusals::Refusal;

// The place as the two bits that the header and the action records show.
pub fn place_bits(place: Place) -> u32
    ensures { (result ≡ place_bits place) × (result ≤ 3) }
{
    place as u32
}

// The second word: place, order 0, key 00, retransmitted, message number. A sum, as its definition is: shifts
// and `|` would need a law of bits each.
fn second_word(place: Place, again: bool, message: MsgNumber) -> u32
    ensures { result ≡ second place again message.0 }
{
    place_bits(place) * 0x4000_0000 + u32::from(again) * 0x0400_0000 + message.0 % 0x0400_0000
}

// A packet's stamp: the low 32 bits of its message's time. The remainder stands, since `as` must lose nothing.
pub fn stamp(time: u64) -> u32
    ensures { result ≡ stamp time }
{
    (time % 0x1_0000_0000) as u32
}

// The sixteen header bytes of one sending, made and returned by value. Its parts are parameters, as C's entry takes them.
pub fn header(
    place: Place,
    again: bool,
    number: SeqNumber,
    message: MsgNumber,
    stamp: u32,
    id: u32,
) -> [u8; 16]
    ensures { result ≡ header place again number.0 message.0 stamp id }
{
    octets::big_words(
        number.0 % 0x8000_0000,
        second_word(place, again, message),
        stamp,
        id,
    )
}

fn judge(len: usize, size: usize) -> Result<(), Refusal>
    ensures { result ≡ judge size len }
{
    if size < 1 || (SIZE_MOST as usize) < size {
        return Err(Refusal::BadSetting);
    }
    if LENGTH_MOST < len {
        return Err(Refusal::TooLong);
    }
    Ok(())
}

// How many packets there are; the call has been judged.
pub fn count(len: usize, size: usize) -> usize
    requires { Sized size len }
    ensures { Counted size len result }
{
    len.div_ceil(size).max(1)
}

// How many packets a message of `len` bytes becomes, in packets of `size` bytes.
pub fn packets(len: usize, size: usize) -> Result<usize, Refusal>
    ensures { result ≡ split size len }
{
    judge(len, size)?;
    Ok(count(len, size))
}

// The place of packet `k` of `n`.
fn place_of(n: usize, k: usize) -> Place
    requires { k < n }
    ensures { result ≡ place_of n k }
{
    if n == 1 {
        return Place::Only;
    }
    if k == 0 {
        return Place::First;
    }
    if k + 1 == n {
        return Place::Last;
    }
    Place::Middle
}

// Packet `k` of the `n` that the caller has counted.
pub fn cut(len: usize, size: usize, n: usize, k: usize) -> Piece
    requires { Cut size len n k }
    ensures { result ≡ piece_of size len k }
{
    let start = k * size;
    Piece {
        place: place_of(n, k),
        start,
        len: size.min(len - start),
    }
}

// Packet `k`, from 0, of a message of `len` bytes.
pub fn packet(len: usize, size: usize, k: usize) -> Result<Option<Piece>, Refusal>
    ensures { result ≡ piece size len k }
{
    judge(len, size)?;
    let n = count(len, size);
    if n <= k {
        return Ok(None);
    }
    Ok(Some(cut(len, size, n, k)))
}
