// The operations of a script, by their numbers.

// A call of the sender that there is. The two presets are no calls of the product.
#[derive(Clone, Copy, Debug, PartialEq, Eq)]
pub(crate) enum Call {
    Message,
    Ack,
    Nak,
    Run,
    Reports,
    Payload,
    PresetMessage,
    PresetBytes,
}

// A stored call makes a sender, or calls the one that there is.
#[derive(Clone, Copy, Debug, PartialEq, Eq)]
pub(crate) enum Operation {
    New,
    On(Call),
}

impl From<u64> for Operation {
    // Other numbers are taken as 9.
    fn from(number: u64) -> Operation {
        match number {
            1 => Operation::New,
            2 => Operation::On(Call::Message),
            3 => Operation::On(Call::Ack),
            4 => Operation::On(Call::Nak),
            5 => Operation::On(Call::Run),
            6 => Operation::On(Call::Reports),
            7 => Operation::On(Call::Payload),
            8 => Operation::On(Call::PresetMessage),
            _ => Operation::On(Call::PresetBytes),
        }
    }
}
