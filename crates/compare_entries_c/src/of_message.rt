// How a message becomes packets.
ghost use Rattle.std.specs.Prelude.{◌≡◌};
ghost use Rattle.rules_packets.specs.Split.{split, piece};
ghost use Rattle.compare_entries.specs.MessageAnswers.{packets_of, piece_of};

use compare_entries::of_message::{PacketsAnswer, PieceAnswer};

#[unsafe(no_mangle)]
pub extern "C" fn compare_split_packets(len: usize, size: usize) -> PacketsAnswer
    ensures { result ≡ packets_of (split size len) }
{
    compare_entries::of_message::compare_split_packets(len, size)
}

#[unsafe(no_mangle)]
pub extern "C" fn compare_split_packet(len: usize, size: usize, k: usize) -> PieceAnswer
    ensures { result ≡ piece_of (piece size len k) }
{
    compare_entries::of_message::compare_split_packet(len, size, k)
}
