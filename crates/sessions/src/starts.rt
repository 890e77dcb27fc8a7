// A sender is made, and a kept number of it set.
use crate::show::answered;
use buffer::Settings;
use rules_numbers::MsgNumber;
use rules_pacing::LiveBandwidthMode;
use sender::Sender;
use std::io;
use stored::{Record, high, low};

// Not a `From`: neither type is this crate's.
fn settings(r: Record) -> Settings {
    Settings {
        first: low(r.a),
        size: high(r.a),
        buffer: low(r.b),
        flow: high(r.b),
        latency: low(r.c),
        overhead: high(r.c),
        socket: low(r.d),
    }
}

// Not a `TryFrom`: it takes three numbers, and each that is none of the others' is taken as 3.
fn mode(which: u32, rate: u64, overhead: u64) -> LiveBandwidthMode {
    match which {
        0 => LiveBandwidthMode::Input { rate, overhead },
        1 => LiveBandwidthMode::Estimated {
            expected: rate,
            overhead,
        },
        2 => LiveBandwidthMode::Max(rate),
        _ => LiveBandwidthMode::Unlimited,
    }
}

pub(crate) fn new(rt: &impl Print, r: Record) -> io::Result<Option<Sender>> {
    let made = answered(rt, Sender::new(settings(r), mode(high(r.d), r.e, r.f)))?;
    if made.is_some() {
        print!(rt; "done")?;
    }
    Ok(made)
}

// No call of the product: the script sets the message counter, so that its wrap is reached, or one that is out of its range.
pub(crate) fn preset_message(rt: &impl Print, s: &mut Sender, number: u32) -> io::Result<()> {
    s.buffer.message = MsgNumber(number);
    print!(rt; "done")
}

// Nor this: it sets the byte count, so that its end is reached.
pub(crate) fn preset_bytes(rt: &impl Print, s: &mut Sender, bytes: u64) -> io::Result<()> {
    s.buffer.bytes = bytes;
    print!(rt; "done")
}
