// Message lines: one line of text for each message, read from any bytes and written into lent room. Serves rules 6. Each field
// is read from the part of the line that begins where the field begins. What is read and written stands in `lines_rules`.
#![tactic(auto)]

ghost use Rattle.std.specs.Prelude.{◌≡◌};
ghost use Rattle.messages.specs.Messages.{has_form};
ghost use Rattle.refusals.specs.Refusals.{said_in};
ghost use Rattle.lines_rules.specs.Reading.{only_number, read_ack_status, read_ack_counter, read_ack, read_line};
ghost use Rattle.lines.specs.Parts.{value_of};
ghost use Rattle.lines_rules.specs.Writing.{write_said, write_room};

use decimals::read_number;
use fields::{after, is_exactly, part_from};
use line_room::write_message;
use messages::{Message, Status};
use refusals::Refusal;

// The value of the number that is all of the part but its line feed.
#[tactic(auto, unfolding(lines_rules::specs::Reading::only_number, lines_rules::specs::Reading::ended))]
fn only_number(s: &[u8], allowed: bool, greatest: u64) -> Result<u64, Refusal>
    ensures { result ≡ value_of (only_number allowed greatest s.now) }
{
    let number = read_number(s, allowed, greatest).map_err(|_| Refusal::BadLine)?;
    if is_exactly(part_from(s, number.length), b"\n") {
        Ok(number.value)
    } else {
        Err(Refusal::BadLine)
    }
}

#[tactic(auto, unfolding(lines_rules::specs::Reading::read_ack_status))]
fn read_ack_status(ts: u64, counter: u64, s: &[u8]) -> Result<Message, Refusal>
    ensures { said_in result ≡ read_ack_status ts counter s.now }
{
    if is_exactly(s, b"\tAlive\n") {
        return Ok(Message::CheckAck(ts, counter, Status::Alive));
    }
    if is_exactly(s, b"\tDead\n") {
        return Ok(Message::CheckAck(ts, counter, Status::Dead));
    }
    Err(Refusal::BadLine)
}

#[tactic(auto, unfolding(lines_rules::specs::Reading::read_ack_counter, lines_rules::specs::Reading::status_behind, fields::specs::Places::behind))]
fn read_ack_counter(ts: u64, s: &[u8]) -> Result<Message, Refusal>
    ensures { said_in result ≡ read_ack_counter ts s.now }
{
    let field = after(s, b"\t").ok_or(Refusal::BadLine)?;
    let number = read_number(field, true, messages::TOP_COUNTER).map_err(|_| Refusal::BadLine)?;
    read_ack_status(ts, number.value, part_from(field, number.length))
}

#[tactic(auto, unfolding(lines_rules::specs::Reading::read_ack, lines_rules::specs::Reading::counter_behind))]
fn read_ack(s: &[u8]) -> Result<Message, Refusal>
    ensures { said_in result ≡ read_ack s.now }
{
    let number = read_number(s, true, messages::TOP_READING).map_err(|_| Refusal::BadLine)?;
    read_ack_counter(number.value, part_from(s, number.length))
}

// The message whose line the bytes are, or 9.
#[tactic(auto, unfolding(lines_rules::specs::Reading::read_line, fields::specs::Places::behind))]
pub fn read_line(s: &[u8]) -> Result<Message, Refusal>
    ensures { said_in result ≡ read_line s.now }
{
    if let Some(rest) = after(s, b"LEASE-REQUEST\t") {
        return Ok(Message::LeaseRequest(only_number(rest, false, messages::TOP_COUNTER)?));
    }
    if let Some(rest) = after(s, b"LEASE-GRANT\t") {
        return Ok(Message::LeaseGrant(only_number(rest, false, messages::TOP_COUNTER)?));
    }
    if let Some(rest) = after(s, b"CHECK\t") {
        return Ok(Message::Check(only_number(rest, true, messages::TOP_READING)?));
    }
    if let Some(rest) = after(s, b"CHECK-ACK\t") {
        return read_ack(rest);
    }
    Err(Refusal::BadLine)
}

#[tactic(auto, unfolding(messages::specs::Messages::has_form))]
fn has_form(m: Message) -> bool
    ensures { result ≡ has_form m }
{
    match m {
        Message::LeaseRequest(counter) | Message::LeaseGrant(counter) => {
            (1 <= counter) & (counter <= messages::TOP_COUNTER)
        }
        Message::Check(ts) => ts <= messages::TOP_READING,
        Message::CheckAck(ts, counter, _) => {
            (ts <= messages::TOP_READING) & (counter <= messages::TOP_COUNTER)
        }
    }
}

// Writes the message's line at the front of the room. What stands behind the line is not touched, and where no line is
// written nothing is.
#[tactic(auto, unfolding(lines_rules::specs::Writing::write_said, lines_rules::specs::Writing::write_room))]
pub fn write_line(m: Message, out: &mut [u8]) -> Result<usize, Refusal>
    ensures { (said_in result ≡ write_said m out.old) × (out.new ≡ write_room m out.old) }
{
    if !has_form(m) {
        return Err(Refusal::BadLine);
    }
    write_message(m, out)
}
