// A run.
use crate::Areas;
use crate::show::{Hex, answered};
use sender::Sender;
use std::io;
use stored::{Record, low};

// Four groups of four bytes, then the full time's eight.
fn show_record(rt: &impl Print, record: &[u8; 24]) -> io::Result<()> {
    let (groups, time) = record.split_at(16);
    print!(rt; "\n ")?;
    for group in groups.chunks(4) {
        print!(rt; " {}", Hex(group))?;
    }
    print!(rt; " {}", Hex(time))
}

fn run(
    rt: &impl Print,
    s: &mut Sender,
    r: Record,
    areas: &mut Areas,
    out: &mut [u8],
) -> io::Result<()> {
    let answer = run::run(
        *s,
        r.a,
        low(r.b),
        r.c == 1,
        &mut areas.ring,
        &areas.lost,
        out,
    );
    if let Some((t, records, left)) = answered(rt, answer)? {
        *s = t;
        print!(rt; "records {records} left {left}")?;
        let (given, _) = out.as_chunks::<24>();
        for record in given.iter().take(records) {
            show_record(rt, record)?;
        }
    }
    Ok(())
}

// There is room for 67 records, or for two.
pub(crate) fn call(
    rt: &impl Print,
    s: &mut Sender,
    r: Record,
    areas: &mut Areas,
) -> io::Result<()> {
    let room = if r.g == 1 { 48 } else { 1_608 };
    let mut out = [0u8; 1_608];
    run(rt, s, r, areas, &mut out[..room])
}
