// The send buffer's books: what a sender keeps besides the lent areas. Document 01, "Numbers and their ends", "Book
// rules" and the reports of "What the hub takes from the crate"; the Rust's `SendBuffer`. The packets lie in a lent
// ring of entries, the loss list in a lent area. That the books are sound stands in the contracts of the crates above, and is
// no invariant of a type: it speaks of areas that are lent for each call, and C fills them. Settings are a parameter beside the
// books: the functions above that docs/ names take them so. In a contract `settings_of` and `state` lead from the code's names to the rules'.
#![tactic(auto)]

ghost use Rattle.std.specs.Prelude.{◌≡◌, ◌-◌, ◌≤◌, max, ltb, take};
ghost use Rattle.ring.specs.Ring.Laws.{Placed};
ghost use Rattle.rules.specs.Settings.{capacity, late_window};
ghost use Rattle.rules.specs.Sender.{wire_sizes};
ghost use Rattle.rules.specs.Reports.{time_of};
ghost use Rattle.buffer.specs.State.{settings_of, packets_of, fresh};
ghost use Rattle.buffer.specs.State.Reports.{is_flushed, has_packets_to_send};
ghost use Rattle.buffer.specs.Removal.Laws.{Removable, Removed, Weighable};

use ring::Ring;
use rules_numbers::{MsgNumber, Rtt, SeqNumber};

// The seven settings of a sender, in document 01's order.
#[repr(C)]
#[derive(Clone, Copy, Default)]
pub struct Settings {
    pub first: u32,
    pub size: u32,
    pub buffer: u32,
    pub flow: u32,
    pub latency: u32,
    pub overhead: u32,
    pub socket: u32,
}

// The flushed packet, whose payload is held until the next accepted message: its number, its slot and its length.
#[derive(Clone, Copy)]
pub struct FlushedPacket {
    pub number: SeqNumber,
    pub slot: usize,
    pub len: usize,
}

// The kept numbers: where the packets lie, the front's number, how many packets from the front on are sent, the length
// of the loss list, the byte count, and the fields that don't depend on the packets.
// No slices in it: C keeps these numbers between the calls, and lends the two areas for each call.
#[derive(Clone, Copy)]
pub struct SendBuffer {
    pub ring: Ring,
    pub front: SeqNumber,
    pub sent: u32,
    pub lost: usize,
    pub bytes: u64,
    pub rtt: Rtt,
    pub message: MsgNumber,
    pub expected: u64,
    pub flushed: Option<FlushedPacket>,
}

impl Settings {
    // How many packets there is room for.
    pub fn capacity(self) -> u32
        ensures { result ≡ capacity (settings_of self) }
    {
        self.buffer.max(1)
    }

    // How old a packet may be before it is late, in microseconds.
    pub fn late_window(self) -> u32
        requires { self.latency ≤ 65_535_000 }
        ensures { result ≡ late_window (settings_of self) }
    {
        (self.latency + self.latency / 4).max(1_000_000)
    }
}

impl SendBuffer {
    // The books of a new sender.
    pub fn new(c: Settings) -> SendBuffer
        ensures { result ≡ fresh (settings_of c) }
    {
        SendBuffer {
            ring: Ring {
                cap: c.capacity() as usize,
                slot: 0,
                len: 0,
            },
            front: SeqNumber(c.first),
            sent: 0,
            lost: 0,
            bytes: 0,
            rtt: rtt::start(),
            message: MsgNumber(0),
            expected: 1,
            flushed: None,
        }
    }

    // How many packets are buffered.
    pub fn len(self) -> usize
        ensures { result ≡ self.ring.len }
    {
        self.ring.len
    }

    // The byte count.
    pub fn len_bytes(self) -> u64
        ensures { result ≡ self.bytes }
    {
        self.bytes
    }

    // How many packets are sent but not acknowledged.
    pub fn number_of_unacked_packets(self) -> u32
        ensures { result ≡ self.sent }
    {
        self.sent
    }

    // Whether the packets sent but not acknowledged exceed the flow window.
    pub fn flow_window_exceeded(self, c: Settings) -> bool
        ensures { result ≡ ltb c.flow self.sent }
    {
        c.flow < self.sent
    }

    // Whether nothing is buffered and the loss list is empty.
    pub fn is_flushed(self) -> bool
        ensures { result ≡ is_flushed self }
    {
        self.lost == 0 && self.ring.len == 0
    }

    // Whether a packet is unsent, or a number is on the loss list.
    pub fn has_packets_to_send(self) -> bool
        ensures { result ≡ has_packets_to_send self }
    {
        (self.sent as usize) < self.ring.len || self.lost != 0
    }

    // The back packet's time less the front's; 0 if that is negative or nothing is buffered.
    pub fn duration(self, ring: &[u64]) -> u64
        requires { Placed self.ring ring.now }
        ensures { result ≡ time_of (packets_of self.ring ring.now) }
    {
        if self.ring.len == 0 {
            return 0;
        }
        let front = self.ring.entry(ring, 0);
        let back = self.ring.entry(ring, self.ring.len - 1);
        back.time.saturating_sub(front.time)
    }

    // The sum of the wire sizes of the first `k` packets.
    pub fn wire_sizes(self, c: Settings, ring: &[u64], k: usize) -> u64
        requires { Weighable (settings_of c) self.ring ring.now k }
        ensures { result ≡ wire_sizes (settings_of c) (take k (packets_of self.ring ring.now)) }
    {
        let mut sum = 0;
        for i in 0..k {
            sum += self.ring.entry(ring, i).len + c.overhead as u64;
        }
        sum
    }

    // Removes `k` packets from the front and from the loss list; next unsent moves past them. The byte count
    // becomes `bytes`.
    pub fn remove(self, lost: &[u32], k: usize, bytes: u64) -> SendBuffer
        requires { Removable self lost.now k }
        ensures { Removed self lost.now k bytes result }
    {
        let to = numbers::plus(self.front, k as u32);
        let listed = loss_list::remove_below(&lost[..self.lost], self.front, to);
        SendBuffer {
            ring: self.ring.remove_front(k),
            front: to,
            sent: self.sent.saturating_sub(k as u32),
            lost: listed,
            bytes,
            ..self
        }
    }
}
