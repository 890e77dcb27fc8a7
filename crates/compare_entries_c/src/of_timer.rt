// A single timer.
ghost use Rattle.std.specs.Prelude.{◌≡◌};
ghost use Rattle.rules_timers.specs.Timer.{made, period_of, next_instant, reset, set_period, check_expired};
ghost use Rattle.host_timers.specs.TimersAnswers.{blank, nanoseconds};
ghost use Rattle.compare_entries.specs.TimerAnswers.{timer_set, timer_checked};

use compare_entries::of_timer::TimerAnswer;
use host_timers::NanosecondsAnswer;
use rules_timers::Timer;

// A new timer; a refused call returns one of zeros.
#[unsafe(no_mangle)]
pub extern "C" fn compare_timer_new(now: u64, period: u64) -> TimerAnswer
    ensures { result ≡ timer_set blank (made now period) }
{
    compare_entries::of_timer::compare_timer_new(now, period)
}

#[unsafe(no_mangle)]
pub extern "C" fn compare_timer_period(timer: Timer) -> NanosecondsAnswer
    ensures { result ≡ nanoseconds (period_of timer) }
{
    compare_entries::of_timer::compare_timer_period(timer)
}

#[unsafe(no_mangle)]
pub extern "C" fn compare_timer_next_instant(timer: Timer) -> NanosecondsAnswer
    ensures { result ≡ nanoseconds (next_instant timer) }
{
    compare_entries::of_timer::compare_timer_next_instant(timer)
}

#[unsafe(no_mangle)]
pub extern "C" fn compare_timer_reset(timer: Timer, now: u64) -> TimerAnswer
    ensures { result ≡ timer_set timer (reset timer now) }
{
    compare_entries::of_timer::compare_timer_reset(timer, now)
}

#[unsafe(no_mangle)]
pub extern "C" fn compare_timer_set_period(timer: Timer, period: u64) -> TimerAnswer
    ensures { result ≡ timer_set timer (set_period timer period) }
{
    compare_entries::of_timer::compare_timer_set_period(timer, period)
}

#[unsafe(no_mangle)]
pub extern "C" fn compare_timer_check_expired(timer: Timer, now: u64) -> TimerAnswer
    ensures { result ≡ timer_checked timer (check_expired timer now) }
{
    compare_entries::of_timer::compare_timer_check_expired(timer, now)
}
