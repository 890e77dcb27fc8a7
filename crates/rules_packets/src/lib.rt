// Document 01, "Message" and "Header": the types. How a message is split, and the header, are defined in specs/.
#![tactic(auto)]

// A packet's place in its message, with the two bits that the header and the action records show.
#[derive(Clone, Copy, Debug, PartialEq, Eq)]
pub enum Place {
    First = 2,
    Middle = 0,
    Last = 1,
    Only = 3,
}

// One packet of a message: its place, and which of the message's bytes are its payload.
#[derive(Clone, Copy)]
pub struct Piece {
    pub place: Place,
    pub start: usize,
    pub len: usize,
}
