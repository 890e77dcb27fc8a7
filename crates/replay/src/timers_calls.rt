// The calls of all timers.
use crate::operation::TimersCall;
use host_timers::TimersAnswer;
use phelgomrit::of_timers::{
    phel_entry_timers_check_full_ack, phel_entry_timers_check_nak,
    phel_entry_timers_check_peer_idle_timeout, phel_entry_timers_check_snd,
    phel_entry_timers_check_statistics, phel_entry_timers_new, phel_entry_timers_next_timer,
    phel_entry_timers_reset_exp, phel_entry_timers_update_rtt, phel_entry_timers_update_snd_period,
};
use rules_numbers::Rtt;
use rules_timers::Timers;
use std::io;
use stored::{Record, low};

// The script's number of a timer, read here alone: an enum would only name these calls once more.
fn check(timers: Timers, which: u64, now: u64) -> TimersAnswer {
    match which {
        0 => phel_entry_timers_check_snd(timers, now),
        1 => phel_entry_timers_check_full_ack(timers, now),
        2 => phel_entry_timers_check_nak(timers, now),
        3 => phel_entry_timers_check_peer_idle_timeout(timers, now),
        _ => phel_entry_timers_check_statistics(timers, now),
    }
}

fn next_timer(rt: &impl Print, timers: Timers, r: Record) -> io::Result<()> {
    let next = phel_entry_timers_next_timer(timers, r.a, r.b == 1, r.c == 1, r.d, low(r.e));
    print!(rt; "timers wake {} {}", next.refusal, next.nanoseconds)
}

fn preset(timers: Timers, exp_count: u32) -> TimersAnswer {
    TimersAnswer {
        refusal: 0,
        periods: 0,
        timers: Timers {
            exp_count,
            ..timers
        },
    }
}

fn show(rt: &impl Print, a: TimersAnswer, ts: &Timers) -> io::Result<()> {
    print!(rt; "timers {} {} {}", a.refusal, a.periods, ts.exp_count)?;
    for t in [
        ts.snd,
        ts.full_ack,
        ts.nak,
        ts.exp,
        ts.peer_idle,
        ts.statistics,
    ] {
        print!(rt; " {} {}", t.last, t.period)?;
    }
    Ok(())
}

// A refused call keeps the timers that there were.
pub(crate) fn call(
    rt: &impl Print,
    call: TimersCall,
    timers: &mut Timers,
    r: Record,
) -> io::Result<()> {
    let a = match call {
        TimersCall::New => phel_entry_timers_new(r.a, r.b, r.c),
        TimersCall::Check => check(*timers, r.a, r.b),
        TimersCall::NextTimer => return next_timer(rt, *timers, r),
        TimersCall::UpdateSndPeriod => phel_entry_timers_update_snd_period(*timers, r.a),
        TimersCall::UpdateRtt => phel_entry_timers_update_rtt(
            *timers,
            Rtt {
                mean: low(r.a),
                variance: low(r.b),
            },
        ),
        TimersCall::ResetExp => phel_entry_timers_reset_exp(*timers, r.a),
        TimersCall::PresetExpCount => preset(*timers, low(r.a)),
    };
    if a.refusal == 0 {
        *timers = a.timers;
    }
    show(rt, a, timers)
}
