// The buffered packets in a lent area: a ring of entries, six words each, in place of the Rust's
// `VecDeque<SendBufferEntry>`. Document 01, "What must change shape". The buffer above has checked its books.
// Ring and area are two parameters: C keeps the one and lends the other, here to be read, there to be written, so that one
// struct of both would be two.
#![tactic(auto)]

ghost use Rattle.std.specs.Prelude.{◌≡◌, ◌+◌, ◌*◌, ◌≤◌, ◌<◌, length};
ghost use Rattle.ring.specs.Entry.{word_of, read_e, write_e};
ghost use Rattle.ring.specs.Ring.{wrap_of, slot_of, pushed, removed, placed};
ghost use Rattle.ring.specs.Ring.Laws.{Placed};

// Words per entry: C lends them as plain numbers.
const WIDTH: usize = 6;

// One buffered packet, in the words that it is kept in.
#[derive(Clone, Copy)]
pub struct Entry {
    pub time: u64,
    pub message: u64,
    // Not a `Place`: a lent area may hold any number until `book_rules` has looked.
    pub place: u64,
    pub len: u64,
    pub count: u64,
    pub resend: u64,
}

// Where the packets lie: how many slots there are, the slot of the front packet, and how many packets there are.
#[repr(C)]
#[derive(Clone, Copy, Default)]
pub struct Ring {
    pub cap: usize,
    pub slot: usize,
    pub len: usize,
}

// The slot for a sum of slots that wraps at most once.
fn wrap(cap: usize, sum: usize) -> usize
    requires { sum < cap + cap }
    ensures { (result ≡ wrap_of cap sum) × (result < cap) }
{
    if sum < cap { sum } else { sum - cap }
}

fn get(area: &[u64], slot: usize) -> Entry
    requires { (slot < 8192) × (slot * 6 + 6 ≤ length area.now) }
    ensures { result ≡ read_e area.now slot }
{
    let at = slot * WIDTH;
    let words = &area[at..at + WIDTH];
    Entry {
        time: words[0],
        message: words[1],
        place: words[2],
        len: words[3],
        count: words[4],
        resend: words[5],
    }
}

fn put(area: &mut [u64], slot: usize, e: Entry)
    requires { (slot < 8192) × (slot * 6 + 6 ≤ length area.old) }
    ensures { area.new ≡ write_e area.old slot e }
{
    let at = slot * WIDTH;
    let words = &mut area[at..at + WIDTH];
    words[0] = e.time;
    words[1] = e.message;
    words[2] = e.place;
    words[3] = e.len;
    words[4] = e.count;
    words[5] = e.resend;
}

impl Ring {
    // Whether the ring fits in an area of this many words.
    pub fn placed(self, words: usize) -> bool
        ensures { result ≡ placed self words }
    {
        self.cap <= 8192
            && self.slot < self.cap
            && self.len <= self.cap
            && self.cap * WIDTH <= words
    }

    // The slot of packet `i` from the front.
    pub fn slot_of(self, i: usize) -> usize
        requires { (self.slot < self.cap) × (i ≤ self.cap) × (self.cap ≤ 8192) }
        ensures { (result ≡ slot_of self i) × (result < self.cap) }
    {
        wrap(self.cap, self.slot + i)
    }

    // Packet `i` from the front.
    pub fn entry(self, area: &[u64], i: usize) -> Entry
        requires placed { Placed self area.now }
        requires i_lt_len { i < self.len }
        ensures { result ≡ read_e area.now (slot_of self i) }
    {
        get(area, self.slot_of(i))
    }

    // Overwrites packet `i` from the front.
    pub fn set_entry(self, area: &mut [u64], i: usize, e: Entry)
        requires placed { Placed self area.old }
        requires i_lt_len { i < self.len }
        ensures { area.new ≡ write_e area.old (slot_of self i) e }
    {
        put(area, self.slot_of(i), e)
    }

    // The ring with one more packet at the back; there is room.
    pub fn push_back(self, area: &mut [u64], e: Entry) -> Ring
        requires placed { Placed self area.old }
        requires len_lt_cap { self.len < self.cap }
        ensures { (result ≡ pushed self) × (area.new ≡ write_e area.old (slot_of self self.len) e) }
    {
        put(area, self.slot_of(self.len), e);
        Ring {
            len: self.len + 1,
            ..self
        }
    }

    // The ring without the first `k` packets.
    pub fn remove_front(self, k: usize) -> Ring
        requires { (self.slot < self.cap) × (self.len ≤ self.cap) × (self.cap ≤ 8192) × (k ≤ self.len) }
        ensures { result ≡ removed k self }
    {
        Ring {
            slot: self.slot_of(k),
            len: self.len - k,
            ..self
        }
    }
}
