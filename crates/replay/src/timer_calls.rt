// The calls of one timer.
use crate::operation::TimerCall;
use compare_entries::of_timer::{
    compare_timer_check_expired, compare_timer_new, compare_timer_next_instant,
    compare_timer_period, compare_timer_reset, compare_timer_set_period,
};
use rules_timers::Timer;
use std::io;
use stored::Record;

fn next_instant(rt: &impl Print, timer: Timer) -> io::Result<()> {
    let next = compare_timer_next_instant(timer);
    let period = compare_timer_period(timer);
    print!(rt;
        "timer next {} {} {} {}",
        next.refusal, next.nanoseconds, period.refusal, period.nanoseconds
    )
}

// A refused call keeps the timer that there was. Beside `timers_calls::call`, which makes and prints other things.
pub(crate) fn call(
    rt: &impl Print,
    call: TimerCall,
    timer: &mut Timer,
    r: Record,
) -> io::Result<()> {
    let a = match call {
        TimerCall::New => compare_timer_new(r.a, r.b),
        TimerCall::SetPeriod => compare_timer_set_period(*timer, r.a),
        TimerCall::Reset => compare_timer_reset(*timer, r.a),
        TimerCall::CheckExpired => compare_timer_check_expired(*timer, r.a),
        TimerCall::NextInstant => return next_instant(rt, *timer),
    };
    if a.refusal == 0 {
        *timer = a.timer;
    }
    print!(rt;
        "timer {} {} {} {}",
        a.refusal, a.periods, timer.last, timer.period
    )
}
