// The header of a packet: document 01, "Header". No argument can be out of range, so nothing is refused.
ghost use Rattle.std.specs.Prelude.{◌≡◌};
ghost use Rattle.rules_packets.specs.Header.{header};
ghost use Rattle.phelgomrit.specs.Packet.{place_of};

use rules_numbers::{MsgNumber, SeqNumber};
use rules_packets::Place;

// The place given by the low two bits. Not a `From`: `Place` is another crate's.
#[tactic(auto, unfolding(crate::specs::Packet::place_of))]
pub fn place_of(bits: u32) -> Place
    ensures { result ≡ place_of bits }
{
    match bits % 4 {
        0 => Place::Middle,
        1 => Place::Last,
        2 => Place::First,
        _ => Place::Only,
    }
}

// The sixteen header bytes, made from the low bits of the place, the number and the message number.
pub fn phel_entry_header(
    out: &mut [u8; 16],
    place: u32,
    again: bool,
    number: u32,
    message: u32,
    stamp: u32,
    id: u32,
)
    ensures { out.new ≡ header (place_of place) again number message stamp id }
{
    *out = encapsulate::header(
        place_of(place),
        again,
        SeqNumber(number),
        MsgNumber(message),
        stamp,
        id,
    );
}
