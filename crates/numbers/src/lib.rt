// Sequence numbers and message numbers: document 01, "Numbers and their ends"; the Rust source doesn't include them.
// They are two types, so that one can't be used for the other. What holds of both is proved once, over the modulus. A trait with the modulus
// would be longer than the three sums.
#![tactic(auto)]

ghost use Rattle.std.specs.Prelude.{◌≡◌};
ghost use Rattle.rules_numbers.specs.Modular.{seqs, msgs, plus, dist};

use rules_numbers::{MsgNumber, SeqNumber};

// The sequence number `k` after this one.
pub fn plus(from: SeqNumber, k: u32) -> SeqNumber
    ensures { result.0 ≡ plus seqs from.0 k }
{
    SeqNumber(from.0.wrapping_add(k) % 0x8000_0000)
}

// How far `to` lies after `from`.
pub fn distance(from: SeqNumber, to: SeqNumber) -> u32
    ensures { result ≡ dist seqs from.0 to.0 }
{
    to.0.wrapping_sub(from.0) % 0x8000_0000
}

// The message number after this one; it wraps to 0.
pub fn next_message(n: MsgNumber) -> MsgNumber
    ensures { result.0 ≡ plus msgs n.0 1 }
{
    MsgNumber(n.0.wrapping_add(1) % 0x0400_0000)
}
