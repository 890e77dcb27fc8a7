// An ACK.
use crate::Areas;
use crate::show::{OrDash, Refused};
use rules_numbers::Rtt;
use sender::Sender;
use std::io;
use stored::{Record, low};

pub(crate) fn call(rt: &impl Print, s: &mut Sender, r: Record, areas: &Areas) -> io::Result<()> {
    let full = (r.b == 1).then_some(low(r.c));
    let rtt = (r.d == 1).then_some(Rtt {
        mean: low(r.e),
        variance: low(r.f),
    });
    match s.ack(low(r.a), full, rtt, &areas.ring, &areas.lost) {
        // Not `answered`: a refused ACK may change the sender too.
        Err((t, why)) => {
            *s = t;
            print!(rt; "{}", Refused(why))
        }
        Ok((t, a)) => {
            *s = t;
            print!(rt;
                "received {} recovered {} full {}",
                a.received,
                a.recovered,
                OrDash(a.send_ack2)
            )
        }
    }
}
