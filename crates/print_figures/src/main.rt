// Document 01's figures on splitting and the header, and headers seen on the wire of a real receiver, computed by the
// proved code and printed. The gate compares what is printed with crates/print_figures/stdout.
#![tactic(auto)]

use rules_numbers::{MsgNumber, SeqNumber};
use rules_packets::Place;
use rules_timers::Timer;
use std::io;

// A message of `len` bytes in packets of four: how many, and the place of the first.
fn split(rt: &impl Print, len: usize) -> io::Result<()> {
    print!(rt; "size 4, length {len}")?;
    if let Ok(n) = encapsulate::packets(len, 4) {
        print!(rt; ": {n}")?;
    }
    if let Ok(Some(piece)) = encapsulate::packet(len, 4, 0) {
        let bits = encapsulate::place_bits(piece.place);
        print!(rt; " packets, the first with place {}{}", bits / 2, bits % 2)?;
    }
    println!(rt;)
}

// A header's sixteen bytes as four words in hex.
fn show(rt: &impl Print, h: [u8; 16]) -> io::Result<()> {
    for word in h.chunks(4) {
        print!(rt; " ")?;
        for b in word {
            print!(rt; "{b:02x}")?;
        }
    }
    println!(rt;)
}

// The header of a message's only packet; `again` if it was sent before.
fn only(
    rt: &impl Print,
    again: bool,
    number: u32,
    message: u32,
    stamp: u32,
    id: u32,
) -> io::Result<()> {
    let header = encapsulate::header(
        Place::Only,
        again,
        SeqNumber(number),
        MsgNumber(message),
        stamp,
        id,
    );
    show(rt, header)
}

fn period(rt: &impl Print, name: &str, t: Timer) -> io::Result<()> {
    println!(rt; "{name} {} ns", t.period)
}

fn main(rt: HostRuntime) -> io::Result<()> {
    let out = &rt;
    split(out, 0)?;
    split(out, 4)?;
    split(out, 5)?;
    split(out, 8)?;
    println!(out;
        "number 5, only packet of message 0, stamp 1,000, id 0x11223344, sent and sent again:"
    )?;
    only(out, false, 5, 0, 1_000, 0x1122_3344)?;
    only(out, true, 5, 0, 1_000, 0x1122_3344)?;
    println!(out; "two headers from the wire of a real receiver:")?;
    only(out, false, 0x09d9_589a, 2, 0x6ee, 0x3900_e136)?;
    only(out, true, 0x09d9_5cc6, 0x42e, 0xbe0, 0x3900_e136)?;
    println!(out; "the timers at the start:")?;
    if let Ok(ts) = timers::new(0, 1_000_000_000, 5_000_000_000) {
        period(out, "SND", ts.snd)?;
        period(out, "ACK", ts.full_ack)?;
        period(out, "NAK", ts.nak)?;
        period(out, "EXP", ts.exp)?;
    }
    Ok(())
}
