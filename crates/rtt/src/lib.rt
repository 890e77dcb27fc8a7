// The round-trip time: document 01, "Numbers and their ends"; the Rust source doesn't include `Rtt`.
#![tactic(auto)]

ghost use Rattle.std.specs.Prelude.{◌≡◌};
ghost use Rattle.rules_numbers.specs.Rtt.{start, in_range};

use rules_numbers::Rtt;

// The round-trip time assumed until an ACK has one.
pub fn start() -> Rtt
    ensures { result ≡ start }
{
    Rtt {
        mean: 100_000,
        variance: 50_000,
    }
}

// Whether mean and variance are in their ranges; if not, the refusal is 8, BadRtt.
pub fn in_range(rtt: Rtt) -> bool
    ensures { result ≡ in_range rtt }
{
    rtt.mean <= 100_000_000 && rtt.variance <= 100_000_000
}
