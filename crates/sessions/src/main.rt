// Answers stored sessions of the sender: 64 bytes in for each call, its answer out as docs/SCRIPTS.md writes it. The gate holds the answers
// against crates/sessions/stdout, which the Rust wrote (compare/README.md, "The stored sessions").
#![tactic(auto)]

use operation::{Call, Operation};
use sender::Sender;
use std::io;
use stored::{Record, low};

mod acks;
mod messages;
mod naks;
mod operation;
mod questions;
mod runs;
mod show;
mod starts;

// The areas of a sender with at most 64 packets of at most 64 bytes.
#[derive(Drop)]
struct Areas {
    ring: [u64; 384],
    lost: [u32; 64],
    store: [u8; 4096],
}

// A call of the sender that there is.
fn on(rt: &impl Print, call: Call, s: &mut Sender, r: Record, areas: &mut Areas) -> io::Result<()> {
    match call {
        Call::Message => messages::call(rt, s, r, areas),
        Call::Ack => acks::call(rt, s, r, areas),
        Call::Nak => naks::call(rt, s, r, areas),
        Call::Run => runs::call(rt, s, r, areas),
        Call::Reports => questions::reports(rt, s, areas),
        Call::Payload => questions::payload(rt, s, low(r.a), areas),
        Call::PresetMessage => starts::preset_message(rt, s, low(r.a)),
        Call::PresetBytes => starts::preset_bytes(rt, s, r.a),
    }
}

// The desk holds the sender that the script made last, or nothing where its making was refused.
fn answer(
    rt: &impl Print,
    desk: &mut Option<Sender>,
    r: Record,
    areas: &mut Areas,
) -> io::Result<()> {
    match Operation::from(r.operation) {
        Operation::New => *desk = starts::new(rt, r)?,
        Operation::On(call) => match desk {
            None => print!(rt; "nothing there")?,
            Some(s) => on(rt, call, s, r, areas)?,
        },
    }
    println!(rt;)
}

// A proved loop has to end, and nothing says that the input does: so the turns have a limit. Both programs have this loop: over a closure, in
// crate stored, its contract would be longer than it is.
fn main(rt: HostRuntime) -> io::Result<()> {
    let mut input = rt.stdin();
    let mut desk = None;
    let mut areas = Areas {
        ring: [0; 384],
        lost: [0; 64],
        store: [0; 4096],
    };
    for _ in 0..u64::MAX {
        let Some(r) = stored::next(&mut input)? else {
            return Ok(());
        };
        answer(&rt, &mut desk, r, &mut areas)?;
    }
    Ok(())
}
