// The header of a packet: document 01, "Header". No argument can be out of range, so nothing is refused.
ghost use Rattle.std.specs.Prelude.{◌≡◌};
ghost use Rattle.rules_packets.specs.Header.{header};
ghost use Rattle.phelgomrit.specs.Packet.{place_of};

// The sixteen header bytes, made from the low bits of the place, the number and the message number.
#[unsafe(no_mangle)]
pub extern "C" fn phel_entry_header(
    out: &mut [u8; 16],
    place: u32,
    again: bool,
    number: u32,
    message: u32,
    stamp: u32,
    id: u32,
)
    ensures { out.new ≡ header (place_of place) again number message stamp id }
{
    phelgomrit::of_packet::phel_entry_header(out, place, again, number, message, stamp, id);
}
