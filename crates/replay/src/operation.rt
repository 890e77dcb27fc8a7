// The operations of a script, by their numbers.

#[derive(Clone, Copy, Debug, PartialEq, Eq)]
pub(crate) enum TimerCall {
    New,
    SetPeriod,
    Reset,
    CheckExpired,
    NextInstant,
}

// `PresetExpCount` is no call of the product: the script sets the EXP count, so that its high values are reached.
#[derive(Clone, Copy, Debug, PartialEq, Eq)]
pub(crate) enum TimersCall {
    New,
    Check,
    NextTimer,
    UpdateSndPeriod,
    UpdateRtt,
    ResetExp,
    PresetExpCount,
}

#[derive(Clone, Copy, Debug, PartialEq, Eq)]
pub(crate) enum PacingCall {
    New,
    OnInput,
}

// A call of one timer, of all timers or of pacing, or a message's packets, or a packet's header.
#[derive(Clone, Copy, Debug, PartialEq, Eq)]
pub(crate) enum Operation {
    Timer(TimerCall),
    Timers(TimersCall),
    Pacing(PacingCall),
    Split,
    Header,
}

impl From<u64> for Operation {
    // 0 is taken as 4, and what is over 16 as 16.
    fn from(number: u64) -> Operation {
        match number {
            1 => Operation::Timer(TimerCall::New),
            2 => Operation::Timer(TimerCall::SetPeriod),
            3 => Operation::Timer(TimerCall::Reset),
            0 | 4 => Operation::Timer(TimerCall::CheckExpired),
            5 => Operation::Timer(TimerCall::NextInstant),
            6 => Operation::Timers(TimersCall::New),
            7 => Operation::Timers(TimersCall::Check),
            8 => Operation::Timers(TimersCall::NextTimer),
            9 => Operation::Timers(TimersCall::UpdateSndPeriod),
            10 => Operation::Timers(TimersCall::UpdateRtt),
            11 => Operation::Timers(TimersCall::ResetExp),
            12 => Operation::Timers(TimersCall::PresetExpCount),
            13 => Operation::Pacing(PacingCall::New),
            14 => Operation::Pacing(PacingCall::OnInput),
            15 => Operation::Split,
            _ => Operation::Header,
        }
    }
}
