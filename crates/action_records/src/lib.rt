// The action records that a run writes: document 01, "Action record". Made as 24 bytes by value and copied into the lent list.
#![tactic(auto)]

ghost use Rattle.std.specs.Prelude.{◌≡◌, ◌+◌, ◌*◌, ◌≤◌, length};
ghost use Rattle.std.proofs.Math.Seq.{paste};
ghost use Rattle.rules.specs.Records.{encode};
ghost use Rattle.action_records.specs.Record.{Numbered, action_of, plain};

// What a record tells the host to do, with its number in document 01.
#[derive(Clone, Copy)]
pub enum Kind {
    Send = 1,
    RetransmitRto = 2,
    RetransmitNak = 3,
    Drop = 4,
    WaitForInput = 5,
    WaitForAck = 6,
}

// One record, its fields in document 01's order; `word` is the message, the exclusive drop end or the unacknowledged count. Fields that its kind
// does not use are 0.
#[derive(Clone, Copy)]
pub struct Record {
    pub kind: Kind,
    // Packed as in the record: the rules' `Action` has this one number.
    pub flags: u8,
    pub len: u16,
    pub number: u32,
    pub word: u32,
    pub stamp: u32,
    pub time: u64,
}

// Bytes to a record.
pub const SIZE: usize = 24;

impl Kind {
    // The number that stands first in a record.
    pub fn number(self) -> u8
        ensures { Numbered self result }
    {
        self as u8
    }
}

impl Record {
    // The record of a drop or a wait: what only the record of a sending has is 0.
    pub fn plain(kind: Kind, number: u32, word: u32, stamp: u32) -> Record
        ensures { result ≡ plain kind number word stamp }
    {
        Record {
            kind,
            flags: 0,
            len: 0,
            number,
            word,
            stamp,
            time: 0,
        }
    }

    // The record's bytes, little-endian.
    pub fn bytes(self) -> [u8; 24]
        ensures { result ≡ encode (action_of self) }
    {
        let mut bytes = [0; SIZE];
        bytes[0] = self.kind.number();
        bytes[1] = self.flags;
        bytes[2..4].copy_from_slice(&self.len.to_le_bytes());
        bytes[4..8].copy_from_slice(&self.number.to_le_bytes());
        bytes[8..12].copy_from_slice(&self.word.to_le_bytes());
        bytes[12..16].copy_from_slice(&self.stamp.to_le_bytes());
        bytes[16..].copy_from_slice(&self.time.to_le_bytes());
        bytes
    }

    // The record as number `k`, from 0, of the lent list; every other byte stays. List and number, as docs/ promise it.
    pub fn write(self, list: &mut [u8], k: usize)
        requires { k * 24 + 24 ≤ length list.old }
        ensures { list.new ≡ paste list.old (k * 24) (encode (action_of self)) 24 }
    {
        let at = k * SIZE;
        list[at..at + SIZE].copy_from_slice(&self.bytes());
    }
}
