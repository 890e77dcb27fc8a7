// Answers a stored script of calls of the leaves: 64 bytes in for each call, a line out. The gate holds the lines against crates/replay/stdout,
// which the Rust wrote (compare/README.md, "The stored sample"), so that a clone without the Rust still hears what it answers.
#![tactic(auto)]

use compare_entries::of_pacing::compare_pacing_new;
use compare_entries::of_timer::compare_timer_new;
use host_structs::pacings::FlatPacing;
use operation::Operation;
use phelgomrit::of_timers::phel_entry_timers_new;
use rules_timers::{Timer, Timers};
use std::io;
use stored::Record;

mod message_calls;
mod operation;
mod pacing_calls;
mod timer_calls;
mod timers_calls;

// The leaves that the script has made so far.
#[derive(Drop)]
struct Bench {
    timer: Timer,
    timers: Timers,
    pacing: FlatPacing,
}

fn start() -> Bench {
    Bench {
        timer: compare_timer_new(0, 0).timer,
        timers: phel_entry_timers_new(0, 0, 0).timers,
        pacing: compare_pacing_new(3, 0, 0).pacing,
    }
}

fn answer(rt: &impl Print, bench: &mut Bench, r: Record) -> io::Result<()> {
    match Operation::from(r.operation) {
        Operation::Timer(call) => timer_calls::call(rt, call, &mut bench.timer, r)?,
        Operation::Timers(call) => timers_calls::call(rt, call, &mut bench.timers, r)?,
        Operation::Pacing(call) => pacing_calls::call(rt, call, &mut bench.pacing, r)?,
        Operation::Split => message_calls::split(rt, r.a as usize, r.b as usize)?,
        Operation::Header => message_calls::header(rt, r)?,
    }
    println!(rt;)
}

// A proved loop has to end, and nothing says that the input does: so the turns have a limit. Both programs have this loop: over a closure, in
// crate stored, its contract would be longer than it is.
fn main(rt: HostRuntime) -> io::Result<()> {
    let mut input = rt.stdin();
    let mut bench = start();
    for _ in 0..u64::MAX {
        let Some(r) = stored::next(&mut input)? else {
            return Ok(());
        };
        answer(&rt, &mut bench, r)?;
    }
    Ok(())
}
