// The run: document 01, "Run"; the Rust's `next_snd_actions` with its `SenderAlgorithmIterator`. The crate run_choice
// decides which rule applies, run_effects does what the rule says, and this crate is the loop over both.
#![tactic(auto)]

ghost use Rattle.std.specs.Prelude.{◌≡◌, true, false};
ghost use Rattle.std.specs.ControlFlow.{MatchControlFlow};
ghost use Rattle.buffer.specs.State.{settings_of, state};
ghost use Rattle.buffer_run.specs.Run.{walk, run};
ghost use Rattle.buffer_run.specs.Run.Turns.{Turning, Done, Swept, Runnable};

use buffer::{SendBuffer, Settings};
use run_choice::Rule;
use run_effects::{Records, leaving, resend, unsent, waits};
use std::ops::ControlFlow;

// The books after a run, how many records it wrote, and the budget left. No type shared with a message's: what they count
// differs.
#[derive(Clone, Copy)]
pub struct Ran {
    pub buffer: SendBuffer,
    pub records: usize,
    pub left: u32,
}

// Does the first of rules 2 to 7 that applies. `Break` says that it ends the run. A match, not closures: the steps borrow
// different areas.
fn turn(
    b: SendBuffer,
    c: Settings,
    ts_now: u64,
    draining: bool,
    ring: &mut [u64],
    lost: &[u32],
    written: &mut Records,
) -> ControlFlow<SendBuffer, SendBuffer>
    requires { Turning (settings_of c) ts_now (state b ring.old lost.now) written.old }
    ensures { MatchControlFlow result
        (λ a. Done (settings_of c) ts_now draining (state b ring.old lost.now) written.old (state a ring.new lost.now) false written.new)
        (λ a. Done (settings_of c) ts_now draining (state b ring.old lost.now) written.old (state a ring.new lost.now) true written.new) }
{
    match run_choice::first_rule(b, c, ts_now, draining, ring) {
        Rule::Loss => {
            ControlFlow::Continue(resend::send_next_lost_packet(b, ts_now, ring, lost, written))
        }
        Rule::Due(i) => {
            ControlFlow::Continue(resend::send_next_rto_packet(b, ts_now, i, ring, written))
        }
        Rule::Window => ControlFlow::Break(waits::wait_for_ack(b, written)),
        Rule::Unsent => ControlFlow::Continue(unsent::send_unsent(b, ts_now, ring, written)),
        Rule::Flush => ControlFlow::Continue(leaving::flush_on_close(b, c, ring, lost, written)),
        Rule::Input => ControlFlow::Break(waits::wait_for_input(b, written)),
    }
}

// Does rule 1, if the front is late.
fn sweep(
    b: SendBuffer,
    c: Settings,
    ts_now: u64,
    ring: &[u64],
    lost: &[u32],
    written: &mut Records,
) -> SendBuffer
    requires { Turning (settings_of c) ts_now (state b ring.now lost.now) written.old }
    ensures { Swept (settings_of c) ts_now (state b ring.now lost.now) written.old (state result ring.now lost.now) written.new }
{
    let k = run_choice::late_packets(b, c, ts_now, ring);
    if k < 1 {
        return b;
    }
    leaving::drop_too_late_packets(b, k, lost, written)
}

// A run: writes to `out`, as 24-byte records, what to send, drop and wait for.
pub fn next_snd_actions(
    b: SendBuffer,
    c: Settings,
    ts_now: u64,
    budget: u32,
    draining: bool,
    ring: &mut [u64],
    lost: &[u32],
    out: &mut [u8],
) -> Ran
    requires { Runnable (settings_of c) ts_now budget (state b ring.old lost.now) out.old }
    ensures { walk (state result.buffer ring.new lost.now) out.new result.records result.left
        ≡ run (settings_of c) ts_now draining budget (state b ring.old lost.now) out.old }
{
    if budget < 1 {
        return Ran {
            buffer: b,
            records: 0,
            left: 0,
        };
    }
    let mut written = Records {
        list: out,
        count: 0,
    };
    let mut here = sweep(b, c, ts_now, ring, lost, &mut written);
    let mut left = budget;
    // Not a `for`: document 01 names this form, a loop that breaks with the number of records.
    let records = loop {
        if left < 1 {
            break written.count;
        }
        let before = written.count;
        match turn(here, c, ts_now, draining, ring, lost, &mut written) {
            ControlFlow::Break(after) => {
                here = after;
                break written.count;
            }
            ControlFlow::Continue(after) => {
                left = (left as usize).saturating_sub(written.count - before) as u32;
                here = after;
            }
        }
    };
    Ran {
        buffer: here,
        records,
        left,
    }
}
