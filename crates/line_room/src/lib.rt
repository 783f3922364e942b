// Lines written into lent room: a word, or a word with one number or two behind it, and of these a message's line. The message
// lines and the lines of answers are made of them. Each gives the line's length, or refusal 10, the room being too short.
// Serves rules 6.4 and 6.6. What is written stands in `lines_rules`.
#![tactic(auto)]

ghost use Rattle.std.specs.Prelude.{◌≡◌};
ghost use Rattle.lines_rules.specs.Writing.{fitting, filled, one_number, two_numbers, line_of};
ghost use Rattle.refusals.specs.Refusals.{said_in};

use decimals::{digit_count, put_number};
use fields::put_bytes;
use messages::{Message, Status};
use refusals::Refusal;

// A line of a word, which holds its line feed already.
pub fn write_word(word: &[u8], out: &mut [u8]) -> Result<usize, Refusal>
    ensures { (said_in result ≡ fitting word.now out.old) × (out.new ≡ filled word.now out.old) }
{
    if out.len() < word.len() {
        return Err(Refusal::WrongRoom);
    }
    Ok(put_bytes(out, 0, word))
}

// A line of one number behind its word.
pub fn write_one(word: &[u8], number: u64, out: &mut [u8]) -> Result<usize, Refusal>
    ensures { (said_in result ≡ fitting (one_number word.now number) out.old) × (out.new ≡ filled (one_number word.now number) out.old) }
{
    if out.len() < word.len() + digit_count(number) + 1 {
        return Err(Refusal::WrongRoom);
    }
    let number_at = put_bytes(out, 0, word);
    let end_at = put_number(out, number_at, number);
    Ok(put_bytes(out, end_at, b"\n"))
}

// A line of two numbers behind its word, parted by a tab, with what ends it, its line feed in it.
pub fn write_two(
    word: &[u8],
    first: u64,
    second: u64,
    end: &[u8],
    out: &mut [u8],
) -> Result<usize, Refusal>
    ensures { (said_in result ≡ fitting (two_numbers word.now first second end.now) out.old) × (out.new ≡ filled (two_numbers word.now first second end.now) out.old) }
{
    if out.len() < word.len() {
        return Err(Refusal::WrongRoom);
    }
    let left = out.len() - word.len();
    if left < digit_count(first) + 1 + digit_count(second) + end.len() {
        return Err(Refusal::WrongRoom);
    }
    let first_at = put_bytes(out, 0, word);
    let tab_at = put_number(out, first_at, first);
    let second_at = put_bytes(out, tab_at, b"\t");
    let end_at = put_number(out, second_at, second);
    Ok(put_bytes(out, end_at, end))
}

// The line of a message, whatever its numbers.
// Kept: a match that calls: no plainer as a table of closures, because each arm writes words and numbers of its own.
#[tactic(auto, using(lines_rules::proofs::Lines::check_line, lines_rules::proofs::Lines::alive_line, lines_rules::proofs::Lines::dead_line))]
pub fn write_message(m: Message, out: &mut [u8]) -> Result<usize, Refusal>
    ensures { (said_in result ≡ fitting (line_of m) out.old) × (out.new ≡ filled (line_of m) out.old) }
{
    match m {
        Message::LeaseRequest(counter) => write_one(b"LEASE-REQUEST\t", counter, out),
        Message::LeaseGrant(counter) => write_one(b"LEASE-GRANT\t", counter, out),
        Message::Check(ts) => write_one(b"CHECK\t", ts, out),
        Message::CheckAck(ts, counter, Status::Alive) => {
            write_two(b"CHECK-ACK\t", ts, counter, b"\tAlive\n", out)
        }
        Message::CheckAck(ts, counter, Status::Dead) => {
            write_two(b"CHECK-ACK\t", ts, counter, b"\tDead\n", out)
        }
    }
}
