// The reports, and a payload.
use crate::Areas;
use crate::show::{Hex, answered};
use sender::Sender;
use std::io;

pub(crate) fn reports(rt: &impl Print, s: &Sender, areas: &Areas) -> io::Result<()> {
    if let Some(b) = answered(rt, reports::reports(*s, &areas.ring, &areas.lost))? {
        print!(rt;
            "flushed {} to_send {}",
            u8::from(b.is_flushed),
            u8::from(b.has_packets_to_send)
        )?;
        print!(rt;
            " packets {} bytes {} time {}",
            b.len, b.len_bytes, b.duration
        )?;
    }
    Ok(())
}

pub(crate) fn payload(rt: &impl Print, s: &Sender, number: u32, areas: &Areas) -> io::Result<()> {
    let answer = payload::payload(*s, number, &areas.ring, &areas.lost, &areas.store);
    if let Some(lies) = answered(rt, answer)? {
        // `get`, since sessions doesn't show that they are all there.
        let end = lies.place.saturating_add(lies.len);
        let payload = areas.store.get(lies.place..end).unwrap_or(&[]);
        print!(rt; "payload {} {}", lies.len, Hex(payload))?;
    }
    Ok(())
}
