// What the answers are made of: docs/SCRIPTS.md, "The sender".
use rules_refusals::Refusal;
use std::{fmt, io};

// A number, or a dash where there is none.
#[derive(Drop)]
pub(crate) struct OrDash<T>(pub Option<T>);

impl<T: fmt::Display + Drop> fmt::Display for OrDash<T> {
    fn fmt<W: fmt::Write>(&self, f: &mut fmt::Formatter<W>) -> fmt::Result {
        match &self.0 {
            None => write!(f, "-"),
            Some(n) => write!(f, "{n}"),
        }
    }
}

// Bytes in hexadecimal.
#[derive(Drop)]
pub(crate) struct Hex<'a>(pub &'a [u8]);

impl fmt::Display for Hex<'_> {
    fn fmt<W: fmt::Write>(&self, f: &mut fmt::Formatter<W>) -> fmt::Result {
        for b in self.0 {
            write!(f, "{b:02X}")?;
        }
        Ok(())
    }
}

// A refusal's number, its name, and what it tells.
#[derive(Drop)]
pub(crate) struct Refused(pub Refusal);

impl fmt::Display for Refused {
    fn fmt<W: fmt::Write>(&self, f: &mut fmt::Formatter<W>) -> fmt::Result {
        write!(f, "refused {} ", refusals::number(self.0))?;
        match self.0 {
            Refusal::InvalidAck {
                ack_number,
                first,
                next,
            } => write!(
                f,
                "InvalidAck ack {} first {} next {}",
                ack_number.0, first.0, next.0
            ),
            Refusal::StaleFullAck {
                received_full_ack,
                next_full_ack,
            } => write!(
                f,
                "StaleFullAck full {received_full_ack} expected {next_full_ack}"
            ),
            Refusal::BadNak { index } => write!(f, "BadNak index {index}"),
            other => write!(f, "{other:?}"),
        }
    }
}

// What was answered; a refusal is printed.
pub(crate) fn answered<T>(rt: &impl Print, answer: Result<T, Refusal>) -> io::Result<Option<T>> {
    match answer {
        Ok(given) => Ok(Some(given)),
        Err(why) => {
            print!(rt; "{}", Refused(why))?;
            Ok(None)
        }
    }
}
