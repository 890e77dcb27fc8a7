// A single timer.
ghost use Rattle.std.specs.Prelude.{◌≡◌};
ghost use Rattle.rules_timers.specs.Timer.{made, period_of, next_instant, reset, set_period, check_expired};
ghost use Rattle.host_timers.specs.TimersAnswers.{blank, nanoseconds};
ghost use Rattle.compare_entries.specs.TimerAnswers.{timer_set, timer_checked};

use host_timers::{NanosecondsAnswer, told};
use rules_refusals::Refusal;
use rules_timers::{Ticked, Timer};

// The answer of a call that makes, sets or checks a timer: the timer after it, and the periods elapsed, 0 for none.
#[repr(C)]
#[derive(Clone, Copy)]
pub struct TimerAnswer {
    pub refusal: u32,
    pub periods: u32,
    pub timer: Timer,
}

// Beside `host_timers::timers_set`, since C's struct here holds one timer.
#[tactic(auto, unfolding(crate::specs::TimerAnswers::timer_set))]
fn timer_set(before: Timer, a: Result<Timer, Refusal>) -> TimerAnswer
    ensures { result ≡ timer_set before a }
{
    match a {
        Ok(timer) => TimerAnswer {
            refusal: 0,
            periods: 0,
            timer,
        },
        Err(refusal) => TimerAnswer {
            refusal: refusals::number(refusal),
            periods: 0,
            timer: before,
        },
    }
}

#[tactic(auto, unfolding(crate::specs::TimerAnswers::timer_checked))]
fn timer_checked(before: Timer, a: Result<Ticked, Refusal>) -> TimerAnswer
    ensures { result ≡ timer_checked before a }
{
    match a {
        Ok(ticked) => TimerAnswer {
            refusal: 0,
            periods: told(ticked.elapsed),
            timer: ticked.timer,
        },
        Err(refusal) => TimerAnswer {
            refusal: refusals::number(refusal),
            periods: 0,
            timer: before,
        },
    }
}

// A new timer; a refused call returns one of zeros.
pub fn compare_timer_new(now: u64, period: u64) -> TimerAnswer
    ensures { result ≡ timer_set blank (made now period) }
{
    timer_set(Timer::default(), timer::new(now, period))
}

pub fn compare_timer_period(timer: Timer) -> NanosecondsAnswer
    ensures { result ≡ nanoseconds (period_of timer) }
{
    timer::period(timer).into()
}

pub fn compare_timer_next_instant(timer: Timer) -> NanosecondsAnswer
    ensures { result ≡ nanoseconds (next_instant timer) }
{
    timer::next_instant(timer).into()
}

pub fn compare_timer_reset(timer: Timer, now: u64) -> TimerAnswer
    ensures { result ≡ timer_set timer (reset timer now) }
{
    timer_set(timer, timer::reset(timer, now))
}

pub fn compare_timer_set_period(timer: Timer, period: u64) -> TimerAnswer
    ensures { result ≡ timer_set timer (set_period timer period) }
{
    timer_set(timer, timer::set_period(timer, period))
}

pub fn compare_timer_check_expired(timer: Timer, now: u64) -> TimerAnswer
    ensures { result ≡ timer_checked timer (check_expired timer now) }
{
    timer_checked(timer, timer::check_expired(timer, now))
}
