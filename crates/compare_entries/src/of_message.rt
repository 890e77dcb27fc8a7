// How a message becomes packets.
ghost use Rattle.std.specs.Prelude.{◌≡◌};
ghost use Rattle.rules_packets.specs.Split.{split, piece};
ghost use Rattle.compare_entries.specs.MessageAnswers.{packets_of, piece_of};

use rules_packets::Piece;
use rules_refusals::Refusal;

// How many packets a message becomes.
#[repr(C)]
#[derive(Clone, Copy)]
pub struct PacketsAnswer {
    pub refusal: u32,
    pub packets: usize,
}

// One packet: its place bits, where its payload starts in the message, and its length. `found` is false if the message
// has fewer packets.
#[repr(C)]
#[derive(Clone, Copy, Default)]
pub struct PieceAnswer {
    pub refusal: u32,
    pub found: bool,
    pub place: u32,
    pub start: usize,
    pub len: usize,
}

// Beside `host_timers::NanosecondsAnswer`, since C's structs differ.
impl From<Result<usize, Refusal>> for PacketsAnswer {
    ghost from_gives = { λ a answer. answer ≡ packets_of a };

    #[tactic(auto, unfolding(crate::specs::MessageAnswers::packets_of))]
    fn from(a: Result<usize, Refusal>) -> PacketsAnswer {
        match a {
            Ok(packets) => PacketsAnswer {
                refusal: 0,
                packets,
            },
            Err(refusal) => PacketsAnswer {
                refusal: refusals::number(refusal),
                packets: 0,
            },
        }
    }
}

impl From<Result<Option<Piece>, Refusal>> for PieceAnswer {
    ghost from_gives = { λ a answer. answer ≡ piece_of a };

    #[tactic(auto, unfolding(crate::specs::MessageAnswers::piece_of))]
    fn from(a: Result<Option<Piece>, Refusal>) -> PieceAnswer {
        match a {
            Ok(Some(piece)) => PieceAnswer {
                refusal: 0,
                found: true,
                place: encapsulate::place_bits(piece.place),
                start: piece.start,
                len: piece.len,
            },
            Ok(None) => PieceAnswer::default(),
            Err(refusal) => PieceAnswer {
                refusal: refusals::number(refusal),
                ..Default::default()
            },
        }
    }
}

pub fn compare_split_packets(len: usize, size: usize) -> PacketsAnswer
    ensures { result ≡ packets_of (split size len) }
{
    PacketsAnswer::from(encapsulate::packets(len, size))
}

pub fn compare_split_packet(len: usize, size: usize, k: usize) -> PieceAnswer
    ensures { result ≡ piece_of (piece size len k) }
{
    PieceAnswer::from(encapsulate::packet(len, size, k))
}
