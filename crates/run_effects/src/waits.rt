// Rules 4 and 7, which end a run: document 01, "wait for ACK and end. The record says window 10,000." and "Wait for
// input and end."
ghost use Rattle.run_effects.specs.Sending.{HasRoom, window_turn, input_turn};
ghost use Rattle.run_effects.specs.Sending.Rules.{Waits};

use crate::Records;
use action_records::{Kind, Record};
use buffer::SendBuffer;

// Rule 4.
pub fn wait_for_ack(b: SendBuffer, records: &mut Records) -> SendBuffer
    requires { HasRoom 1 records.old }
    ensures { Waits window_turn b records.old result records.new }
{
    let sent = b.number_of_unacked_packets();
    records.push(Record::plain(Kind::WaitForAck, 0, sent, 10_000));
    b
}

// Rule 7.
pub fn wait_for_input(b: SendBuffer, records: &mut Records) -> SendBuffer
    requires { HasRoom 1 records.old }
    ensures { Waits input_turn b records.old result records.new }
{
    records.push(Record::plain(Kind::WaitForInput, 0, 0, 0));
    b
}
