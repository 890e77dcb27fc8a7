// A message enters the send buffer: document 01, "Message" and "Byte count"; the Rust's `SendBuffer::push_data`, once
// for each packet of the message. The layer above has checked the books and the message before it calls this.
#![tactic(auto)]

ghost use Rattle.std.specs.Prelude.{◌≡◌, ◌+◌, ◌*◌, ◌≤◌, ◌<◌};
ghost use Rattle.rules_packets.specs.Header.{place_bits};
ghost use Rattle.ring.specs.Entry.{entry};
ghost use Rattle.ring.specs.Ring.{slot_of};
ghost use Rattle.buffer.specs.State.{state, settings_of};
ghost use Rattle.buffer_push.specs.Message.{work, pushing, roomed, push_one, begun, none_yet, message};
ghost use Rattle.buffer_push.specs.Message.Parts.{Roomable, Appendable, Appended};
ghost use Rattle.buffer_push.specs.Message.Rest.{Next};
ghost use Rattle.buffer_push.specs.Message.Whole.{Sendable};

use buffer::{SendBuffer, Settings};
use ring::{Entry, Ring};
use rules_numbers::MsgNumber;
use rules_packets::Piece;

// The books after a message, and what the call answers: packets made, packets removed, wire bytes removed. No type
// shared with a run's answer: what they count differs.
#[derive(Clone, Copy)]
pub struct Pushed {
    pub buffer: SendBuffer,
    pub made: usize,
    pub removed: usize,
    pub bytes: u64,
}

// Where the payload of the next packet goes in the store. C lends entries and payloads as two areas, so one slot serves
// both.
fn next_place(at: Ring, size: usize) -> usize
    requires { (at.slot < at.cap) × (at.len ≤ at.cap) × (at.cap ≤ 8192) × (size ≤ 1456) }
    ensures { result ≡ slot_of at at.len * size }
{
    at.slot_of(at.len) * size
}

// The entry of a pushed packet, which is unsent. Not a `From`: it takes three values.
fn entry_of(time: u64, number: MsgNumber, piece: Piece) -> Entry
    ensures { result ≡ entry time number.0 (place_bits piece.place) piece.len 0 0 }
{
    Entry {
        time,
        message: number.0 as u64,
        place: encapsulate::place_bits(piece.place) as u64,
        len: piece.len as u64,
        count: 0,
        resend: 0,
    }
}

// If the buffer is full, removes the front packet, from the loss list too, and counts it.
fn make_room(p: Pushed, c: Settings, ring: &[u64], lost: &[u32]) -> Pushed
    requires { Roomable (settings_of c) (work p ring.now lost.now) }
    ensures { work result ring.now lost.now
        ≡ roomed (settings_of c) (work p ring.now lost.now) }
{
    let b = p.buffer;
    if b.ring.len < b.ring.cap {
        return p;
    }
    let wire = b.wire_sizes(c, ring, 1);
    Pushed {
        buffer: b.remove(lost, 1, b.bytes - wire),
        removed: p.removed + 1,
        bytes: p.bytes + wire,
        ..p
    }
}

// Appends a packet at the back; there is room.
fn append(p: Pushed, c: Settings, e: Entry, ring: &mut [u64]) -> Pushed
    requires { Appendable (settings_of c) p.buffer p.made ring.old e }
    ensures { Appended (settings_of c) e p ring.old result ring.new }
{
    let mut buffer = p.buffer;
    buffer.ring = buffer.ring.push_back(ring, e);
    buffer.bytes += e.len + c.overhead as u64;
    Pushed {
        buffer,
        made: p.made + 1,
        ..p
    }
}

// Pushes the next packet of a message of `n`: makes room, copies the payload to its slot, appends the entry.
fn push_data(
    p: Pushed,
    c: Settings,
    time: u64,
    number: MsgNumber,
    payload: &[u8],
    n: usize,
    ring: &mut [u64],
    lost: &[u32],
    store: &mut [u8],
) -> Pushed
    requires { Next (settings_of c) time number.0 payload.now n (pushing (work p ring.old lost.now) store.old) }
    ensures { pushing (work result ring.new lost.now) store.new
        ≡ push_one (settings_of c) time number.0 payload.now (pushing (work p ring.old lost.now) store.old) }
{
    let size = c.size as usize;
    let piece = encapsulate::cut(payload.len(), size, n, p.made);
    let q = make_room(p, c, ring, lost);
    let at = next_place(q.buffer.ring, size);
    octets::copy_in(store, at, &payload[piece.start..], piece.len);
    append(q, c, entry_of(time, number, piece), ring)
}

// Gives the message its number; a flushed payload is no longer held.
#[tactic(auto, unfolding(crate::specs::Message::begun))]
fn begin(b: SendBuffer) -> Pushed
    ensures { result ≡ none_yet (begun b) }
{
    Pushed {
        buffer: SendBuffer {
            message: numbers::next_message(b.message),
            flushed: None,
            ..b
        },
        made: 0,
        removed: 0,
        bytes: 0,
    }
}

// Pushes a whole message, in packets of the size that is set.
pub fn push_message(
    b: SendBuffer,
    c: Settings,
    time: u64,
    payload: &[u8],
    ring: &mut [u64],
    lost: &[u32],
    store: &mut [u8],
) -> Pushed
    requires { Sendable (settings_of c) (state b ring.old lost.now) time payload.now store.old }
    ensures { pushing (work result ring.new lost.now) store.new
        ≡ message (settings_of c) time payload.now (state b ring.old lost.now) store.old }
{
    let n = encapsulate::count(payload.len(), c.size as usize);
    let mut p = begin(b);
    for _ in 0..n {
        p = push_data(p, c, time, b.message, payload, n, ring, lost, store);
    }
    p
}
