// What each rule of a run does: document 01, "Run", rules 1 to 7, and "Action record"; the Rust's `send_packet` and its
// callers. Each rule writes its records into the lent list, behind those already there, and returns the books after it.
//   packet    a sending: the record, the transmit count and the next resend time
//   unsent    rule 5, first sendings
//   resend    rules 2 and 3, resends
//   leaving   rules 1 and 6, which remove packets from the buffer
//   waits     rules 4 and 7
#![tactic(auto)]

ghost use Rattle.action_records.specs.Record.{action_of};
ghost use Rattle.run_effects.specs.Sending.{HasRoom, Pushed};

use action_records::Record;

pub mod leaving;
mod packet;
pub mod resend;
pub mod unsent;
pub mod waits;

// The lent list for a run's records, and how many it has.
// Its room is no invariant: it shrinks with each record, so each rule asks for what it needs.
#[derive(Drop)]
pub struct Records<'a> {
    pub list: &'a mut [u8],
    pub count: usize,
}

impl Records<'_> {
    // Writes a record behind the others.
    pub fn push(&mut self, r: Record)
        requires { HasRoom 1 self.old }
        ensures { Pushed self.old (action_of r) self.new }
    {
        r.write(self.list, self.count);
        self.count += 1;
    }
}
