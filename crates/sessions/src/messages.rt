// A message: of up to 512 seeded bytes, or longer than any may be.
ghost use Rattle.std.specs.Prelude.{◌≡◌, length};

use crate::Areas;
use crate::show::{OrDash, answered};
use sender::Sender;
use std::io;
use stored::{Record, at_most, low};

const LENGTH_MOST: usize = 512;

const TOO_LONG: u64 = 1_048_577;

fn seeded(seed: u32, i: usize) -> u8 {
    let k = i.min(LENGTH_MOST) as u64;
    ((seed as u64 + 131 * k + k / 251) % 256) as u8
}

fn fill(bytes: &mut [u8], seed: u32) {
    for (i, byte) in bytes.iter_mut().enumerate() {
        *byte = seeded(seed, i);
    }
}

fn send(
    rt: &impl Print,
    s: &mut Sender,
    r: Record,
    payload: &[u8],
    areas: &mut Areas,
) -> io::Result<()> {
    let answer = s.message(
        r.a,
        r.b,
        payload,
        &mut areas.ring,
        &areas.lost,
        &mut areas.store,
    );
    if let Some((t, a)) = answered(rt, answer)? {
        *s = t;
        print!(rt;
            "made {} removed {} bytes {} period {}",
            a.made,
            a.removed,
            a.bytes,
            OrDash(a.period)
        )?;
    }
    Ok(())
}

// One byte more than a message may have. The `ensures` gives only the length, which lending the array as a slice needs.
fn too_long() -> [u8; 1_048_577]
    ensures { 1_048_577 ≡ length result }
{
    [0; 1_048_577]
}

pub(crate) fn call(
    rt: &impl Print,
    s: &mut Sender,
    r: Record,
    areas: &mut Areas,
) -> io::Result<()> {
    if r.c == TOO_LONG {
        return send(rt, s, r, &too_long(), areas);
    }
    let mut bytes = [0u8; LENGTH_MOST];
    fill(&mut bytes, low(r.d));
    send(rt, s, r, &bytes[..at_most(r.c, LENGTH_MOST)], areas)
}
