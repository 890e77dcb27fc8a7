// A sender's kept fields as numbers, and the sender they encode. Numbers that encode nothing are read as a field that
// breaks the book rules, so every call refuses them in its order of tests: BadState.
ghost use Rattle.std.specs.Prelude.{◌≡◌};
ghost use Rattle.host_structs.specs.Senders.{flushed_of, held_from, buffer_of, books_from, sender_of, flat_from};

use crate::pacings::FlatPacing;
use buffer::{FlushedPacket, SendBuffer, Settings};
use ring::Ring;
use rules_numbers::{MsgNumber, Rtt, SeqNumber};
use rules_pacing::SenderCongestionControl;
use sender::Sender;

// The flushed packet whose payload is held: `held` is 1; if none is, every field is 0.
#[repr(C)]
#[derive(Clone, Copy, Default)]
pub struct HeldPacket {
    pub held: u32,
    pub number: u32,
    pub slot: usize,
    pub len: usize,
}

// What the send buffer keeps besides the lent areas.
#[repr(C)]
#[derive(Clone, Copy, Default)]
pub struct FlatBooks {
    pub ring: Ring,
    pub front: u32,
    pub sent: u32,
    pub lost: usize,
    pub bytes: u64,
    pub rtt: Rtt,
    pub expected: u64,
    pub held: HeldPacket,
    pub message: u32,
}

// Everything that a sender keeps besides the lent areas.
#[repr(C)]
#[derive(Clone, Copy, Default)]
pub struct FlatSender {
    pub settings: Settings,
    pub books: FlatBooks,
    pub pacing: FlatPacing,
}

const NO_NUMBER: u32 = 0xffff_ffff;

// The flushed packet that these numbers encode. Not a `From`: std has one into `Option` already, so each call would have
// to name both types.
#[tactic(auto, unfolding(crate::specs::Senders::flushed_of))]
fn flushed_of(h: HeldPacket) -> Option<FlushedPacket>
    ensures { result ≡ flushed_of h }
{
    match (h.held, h.number, h.slot, h.len) {
        (1, number, slot, len) => Some(FlushedPacket {
            number: SeqNumber(number),
            slot,
            len,
        }),
        (0, 0, 0, 0) => None,
        _ => Some(FlushedPacket {
            number: SeqNumber(NO_NUMBER),
            slot: 0,
            len: 0,
        }),
    }
}

// The flushed packet as numbers.
impl From<Option<FlushedPacket>> for HeldPacket {
    ghost from_gives = { λ f h. h ≡ held_from f };

    fn from(f: Option<FlushedPacket>) -> HeldPacket {
        match f {
            None => HeldPacket::default(),
            Some(packet) => HeldPacket {
                held: 1,
                number: packet.number.0,
                slot: packet.slot,
                len: packet.len,
            },
        }
    }
}

// The send buffer that these numbers encode.
impl From<FlatBooks> for SendBuffer {
    ghost from_gives = { λ f b. b ≡ buffer_of f };

    fn from(f: FlatBooks) -> SendBuffer {
        SendBuffer {
            ring: f.ring,
            front: SeqNumber(f.front),
            sent: f.sent,
            lost: f.lost,
            bytes: f.bytes,
            rtt: f.rtt,
            message: MsgNumber(f.message),
            expected: f.expected,
            flushed: flushed_of(f.held),
        }
    }
}

// A send buffer as numbers.
impl From<SendBuffer> for FlatBooks {
    ghost from_gives = { λ b f. f ≡ books_from b };

    fn from(b: SendBuffer) -> FlatBooks {
        FlatBooks {
            ring: b.ring,
            front: b.front.0,
            sent: b.sent,
            lost: b.lost,
            bytes: b.bytes,
            rtt: b.rtt,
            expected: b.expected,
            held: HeldPacket::from(b.flushed),
            message: b.message.0,
        }
    }
}

// The sender that these numbers encode.
impl From<FlatSender> for Sender {
    ghost from_gives = { λ f s. s ≡ sender_of f };

    #[tactic(auto, unfolding(crate::specs::Senders::sender_of))]
    fn from(f: FlatSender) -> Sender {
        Sender {
            settings: f.settings,
            buffer: SendBuffer::from(f.books),
            pacing: SenderCongestionControl::from(f.pacing),
        }
    }
}

// A sender as numbers.
impl From<Sender> for FlatSender {
    ghost from_gives = { λ s f. f ≡ flat_from s };

    #[tactic(auto, unfolding(crate::specs::Senders::flat_from))]
    fn from(s: Sender) -> FlatSender {
        FlatSender {
            settings: s.settings,
            books: FlatBooks::from(s.buffer),
            pacing: FlatPacing::from(s.pacing),
        }
    }
}
