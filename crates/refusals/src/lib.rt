// Why a call is refused: document 01, "Refusal numbers". Every call answers with one of these, or does what was asked.
#![tactic(auto)]

ghost use Rattle.std.specs.Prelude.{◌≡◌};
ghost use Rattle.rules_refusals.specs.Table.{Numbered};
ghost use Rattle.rules_refusals.specs.Verdict.{when};

use rules_refusals::Refusal;

// The refusal's number. Not by `as`: three of the variants have fields.
pub fn number(refusal: Refusal) -> u32
    ensures { Numbered refusal result }
{
    match refusal {
        Refusal::BadSetting => 1,
        Refusal::BadStore => 2,
        Refusal::BadState => 3,
        Refusal::BadTime => 4,
        Refusal::TooLong => 5,
        Refusal::CountFull => 6,
        Refusal::BadNumber => 7,
        Refusal::BadRtt => 8,
        Refusal::Empty => 9,
        Refusal::InvalidAck {
            ack_number: _,
            first: _,
            next: _,
        } => 10,
        Refusal::StaleFullAck {
            received_full_ack: _,
            next_full_ack: _,
        } => 11,
        Refusal::BadNak { index: _ } => 12,
        Refusal::NoRoom => 13,
        Refusal::NotHeld => 14,
    }
}

// One test of a chain: its refusal if it holds, else what the later tests say. The calls' own chains return early instead.
pub fn when(test: bool, refusal: Refusal, rest: Result<(), Refusal>) -> Result<(), Refusal>
    ensures { result ≡ when test refusal rest }
{
    if test {
        return Err(refusal);
    }
    rest
}
