// The book rules, checked on the kept numbers and the lent areas. Document 01, "Book rules": "A host entry checks
// them"; refusal 3, BadState, is given exactly where `kept` is false.
#![tactic(auto)]

ghost use Rattle.std.specs.Prelude.{◌≡◌, ◌≤◌};
ghost use Rattle.ring.specs.Ring.Laws.{Placed};
ghost use Rattle.rules.specs.Settings.{in_range};
ghost use Rattle.buffer.specs.State.{settings_of, state};
ghost use Rattle.book_rules.specs.Kept.{flushed_kept, numbers_kept, areas_kept, packet_entry, sent_entry, unsent_entry, entries_kept, kept};

use buffer::{FlushedPacket, SendBuffer, Settings};
use ring::Entry;
use rules_numbers::{BYTES_LIMIT, SIZE_MOST, TIME_LIMIT, TRANSMIT_MOST};

const MESSAGE_LIMIT: u64 = 1 << 26;

const RESEND_LIMIT: u64 = 1 << 49;

// Whether each setting is in its range; if not, the refusal is 1, BadSetting.
#[tactic(auto, unfolding(rules::specs::Settings::in_range))]
pub fn settings_in_range(c: Settings) -> bool
    ensures { result ≡ in_range (settings_of c) }
{
    c.first < 0x8000_0000
        && 1 <= c.size
        && c.size <= SIZE_MOST
        && c.buffer <= 8_192
        && c.flow <= 65_535
        && c.latency <= 65_535_000
        && c.overhead <= 128
}

fn flushed_kept(c: Settings, f: Option<FlushedPacket>) -> bool
    ensures { result ≡ flushed_kept (settings_of c) f }
{
    f.is_none_or(|f| {
        f.number.0 < 0x8000_0000 && f.slot < c.capacity() as usize && f.len <= c.size as usize
    })
}

// The rules of the kept numbers, whatever the areas hold.
#[tactic(auto, unfolding(crate::specs::Kept::numbers_kept))]
fn numbers_kept(b: SendBuffer, c: Settings) -> bool
    ensures { result ≡ numbers_kept (settings_of c) b }
{
    settings_in_range(c)
        && b.front.0 < 0x8000_0000
        && b.sent as usize <= b.ring.len
        && b.bytes < BYTES_LIMIT
        && 1 <= b.expected
        && b.expected <= 0x1_0000_0000
        && rtt::in_range(b.rtt)
        && b.message.0 < 0x400_0000
        && flushed_kept(c, b.flushed)
}

// Whether the ring lies within `words` words and the loss list has room in `room` elements.
#[tactic(auto, unfolding(crate::specs::Kept::areas_kept))]
fn areas_kept(b: SendBuffer, c: Settings, words: usize, room: usize) -> bool
    ensures { result ≡ areas_kept (settings_of c) b words room }
{
    b.ring.placed(words) && b.ring.cap == c.capacity() as usize && b.ring.cap <= room
}

// The rules of any packet's entry.
fn packet_kept(c: Settings, e: Entry) -> bool
    ensures { result ≡ packet_entry (settings_of c) e }
{
    e.place <= 3 && e.time < TIME_LIMIT && e.message < MESSAGE_LIMIT && e.len <= c.size as u64
}

// The rules of a sent packet's entry.
#[tactic(auto, unfolding(crate::specs::Kept::sent_entry, rules::specs::BookRules::sent_kept, rules::specs::BookRules::every, buffer::specs::State::packet_of))]
fn sent_kept(c: Settings, e: Entry) -> bool
    ensures { result ≡ sent_entry (settings_of c) e }
{
    packet_kept(c, e) && 1 <= e.count && e.count <= TRANSMIT_MOST && e.resend < RESEND_LIMIT
}

// The rules of an unsent packet's entry.
#[tactic(auto, unfolding(crate::specs::Kept::unsent_entry, rules::specs::BookRules::unsent_kept, rules::specs::BookRules::every, buffer::specs::State::packet_of))]
fn unsent_kept(c: Settings, e: Entry) -> bool
    ensures { result ≡ unsent_entry (settings_of c) e }
{
    packet_kept(c, e) && e.count == 0 && e.resend == 0
}

// The rules of every packet: first the sent ones, then the unsent ones.
fn entries_kept(b: SendBuffer, c: Settings, ring: &[u64]) -> bool
    requires placed { Placed b.ring ring.now }
    requires sent_le_len { b.sent ≤ b.ring.len }
    ensures { result ≡ entries_kept (settings_of c) b ring.now }
{
    let sent = b.sent as usize;
    (0..sent).all(|i| sent_kept(c, b.ring.entry(ring, i)))
        && (sent..b.ring.len).all(|i| unsent_kept(c, b.ring.entry(ring, i)))
}

// Whether the books, with the areas lent for the call, keep the book rules.
#[tactic(auto, using(crate::specs::Kept::Laws::all_packets), unfolding(crate::specs::Kept::kept))]
pub fn kept(b: SendBuffer, c: Settings, ring: &[u64], lost: &[u32]) -> bool
    ensures { result ≡ kept (settings_of c) (state b ring.now lost.now) }
{
    numbers_kept(b, c)
        && areas_kept(b, c, ring.len(), lost.len())
        && entries_kept(b, c, ring)
        && b.wire_sizes(c, ring, b.ring.len) <= b.bytes
        && loss_list::keeps(lost, b.lost, b.front, b.sent)
}
