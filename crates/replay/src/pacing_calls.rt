// The calls of pacing.
use crate::operation::PacingCall;
use compare_entries::of_pacing::{compare_pacing_new, compare_pacing_on_input};
use host_structs::pacings::FlatPacing;
use std::io;
use stored::{Record, low};

// A refused call keeps the pacing that there was.
pub(crate) fn call(
    rt: &impl Print,
    call: PacingCall,
    pacing: &mut FlatPacing,
    r: Record,
) -> io::Result<()> {
    let a = match call {
        PacingCall::New => compare_pacing_new(low(r.a), r.b, r.c),
        PacingCall::OnInput => compare_pacing_on_input(*pacing, r.a, r.b, r.c),
    };
    if a.refusal == 0 {
        *pacing = a.pacing;
    }
    print!(rt;
        "pacing {} {} {} {}",
        a.refusal, a.period, pacing.begun, pacing.next
    )?;
    for e in [pacing.packets, pacing.bytes] {
        print!(rt; " {} {} {}", e.count, e.mean, e.variance)?;
    }
    Ok(())
}
