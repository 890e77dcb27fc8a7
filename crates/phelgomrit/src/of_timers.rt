// The timers' calls: document 01, "Timers".
ghost use Rattle.std.specs.Prelude.{◌≡◌};
ghost use Rattle.rules_timers.specs.Timers.{new, update_snd_period, update_rtt, reset_exp};
ghost use Rattle.rules_timers.specs.Wake.{next_timer};
ghost use Rattle.rules_timers.specs.Checks.{check_snd, check_full_ack, check_nak, check_statistics, check_peer_idle_timeout};
ghost use Rattle.host_timers.specs.TimersAnswers.{nanoseconds, blanks, timers_set, timers_checked, next_message};

use host_timers::{
    NanosecondsAnswer, TimersAnswer, blanks, next_message, timers_checked, timers_set,
};
use rules_numbers::Rtt;
use rules_timers::Timers;

// New timers; a refused call returns zeros.
pub fn phel_entry_timers_new(now: u64, statistics: u64, idle: u64) -> TimersAnswer
    ensures { result ≡ timers_set blanks (new now statistics idle) }
{
    timers_set(blanks(), timers::new(now, statistics, idle))
}

// `known` says whether the host knows its next message's time.
pub fn phel_entry_timers_next_timer(
    timers: Timers,
    now: u64,
    packets: bool,
    known: bool,
    message: u64,
    unacked: u32,
) -> NanosecondsAnswer
    ensures { result ≡ nanoseconds (next_timer timers now packets (next_message known message) unacked) }
{
    timer_checks::wake::next_timer(
        timers,
        now,
        packets,
        next_message(known, message),
        unacked,
    ).into()
}

pub fn phel_entry_timers_check_snd(timers: Timers, now: u64) -> TimersAnswer
    ensures { result ≡ timers_checked timers (check_snd timers now) }
{
    timers_checked(timers, timer_checks::check_snd(timers, now))
}

pub fn phel_entry_timers_check_full_ack(timers: Timers, now: u64) -> TimersAnswer
    ensures { result ≡ timers_checked timers (check_full_ack timers now) }
{
    timers_checked(timers, timer_checks::check_full_ack(timers, now))
}

pub fn phel_entry_timers_check_nak(timers: Timers, now: u64) -> TimersAnswer
    ensures { result ≡ timers_checked timers (check_nak timers now) }
{
    timers_checked(timers, timer_checks::check_nak(timers, now))
}

pub fn phel_entry_timers_check_statistics(timers: Timers, now: u64) -> TimersAnswer
    ensures { result ≡ timers_checked timers (check_statistics timers now) }
{
    timers_checked(timers, timer_checks::check_statistics(timers, now))
}

pub fn phel_entry_timers_check_peer_idle_timeout(timers: Timers, now: u64) -> TimersAnswer
    ensures { result ≡ timers_checked timers (check_peer_idle_timeout timers now) }
{
    timers_checked(timers, timer_checks::check_peer_idle_timeout(timers, now))
}

pub fn phel_entry_timers_update_snd_period(timers: Timers, period: u64) -> TimersAnswer
    ensures { result ≡ timers_set timers (update_snd_period timers period) }
{
    timers_set(timers, timers::update_snd_period(timers, period))
}

pub fn phel_entry_timers_update_rtt(timers: Timers, rtt: Rtt) -> TimersAnswer
    ensures { result ≡ timers_set timers (update_rtt timers rtt) }
{
    timers_set(timers, timers::update_rtt(timers, rtt))
}

pub fn phel_entry_timers_reset_exp(timers: Timers, now: u64) -> TimersAnswer
    ensures { result ≡ timers_set timers (reset_exp timers now) }
{
    timers_set(timers, timers::reset_exp(timers, now))
}
