// Splitting, and headers.
use compare_entries::of_message::{compare_split_packet, compare_split_packets};
use phelgomrit::of_packet::phel_entry_header;
use std::io;
use stored::{Record, low};

// How many packets, and each one's place and length.
pub(crate) fn split(rt: &impl Print, size: usize, len: usize) -> io::Result<()> {
    let a = compare_split_packets(len, size);
    print!(rt; "split {} {}", a.refusal, a.packets)?;
    for k in 0..a.packets {
        let packet = compare_split_packet(len, size, k);
        print!(rt; " {} {}", packet.place, packet.len)?;
    }
    Ok(())
}

pub(crate) fn header(rt: &impl Print, r: Record) -> io::Result<()> {
    let mut out = [0u8; 16];
    phel_entry_header(
        &mut out,
        low(r.b),
        r.c == 1,
        low(r.a),
        low(r.d),
        low(r.e),
        low(r.f),
    );
    print!(rt; "header")?;
    for b in out {
        print!(rt; " {b}")?;
    }
    Ok(())
}
