// The lines that answer a step file. Serves rules 7.6 and 7.7.
#![tactic(auto)]

ghost use Rattle.std.specs.Prelude.{◌≡◌, ◌+◌, ◌≤◌, [], length};
ghost use Rattle.fields.specs.Places.{put_at};
ghost use Rattle.refusals.specs.Refusals.{said_in};
ghost use Rattle.messages.specs.Answers.{said, said_with, sends, speaks, words_of};
ghost use Rattle.lines_rules.specs.Writing.{fitting, filled, one_number};
ghost use Rattle.answer_lines.specs.Answers.{answer_line, settings_answer};
ghost use Rattle.answer_lines.specs.Parts.{value_part, values_line};

use decimals::{digit_count, put_number};
use fields::put_bytes;
use line_room::{write_message, write_one, write_word};
use messages::{Answer, Message, Word};
use refusals::Refusal;
use settings::{Accepted, Settings, judge};

// The line of a message behind its 0, which is written last: where the line does not fit, nothing is.
fn write_sent(m: Message, out: &mut [u8]) -> Result<usize, Refusal>
    ensures { (said_in result ≡ fitting (answer_line (sends m)) out.old) × (out.new ≡ filled (answer_line (sends m)) out.old) }
{
    if out.len() < 2 {
        return Err(Refusal::WrongRoom);
    }
    let length = write_message(m, &mut out[2..])?;
    Ok(put_bytes(out, 0, b"0\t") + length)
}

// The line of a word.
// Kept: a match that calls: no plainer as a table of closures, because each arm writes a text of its own, two of them a number too.
fn write_said(word: Word, out: &mut [u8]) -> Result<usize, Refusal>
    ensures { (said_in result ≡ fitting (answer_line (speaks (words_of word))) out.old) × (out.new ≡ filled (answer_line (speaks (words_of word))) out.old) }
{
    match word {
        Word::Unregistered => write_word(b"0\tunregistered\n", out),
        Word::Running => write_word(b"0\trunning\n", out),
        Word::Stopped => write_word(b"0\tstopped\n", out),
        Word::Silent => write_word(b"0\tsilent\n", out),
        Word::Cut => write_word(b"0\tcut\n", out),
        Word::Waiting => write_word(b"0\twaiting\n", out),
        Word::Late => write_word(b"0\tlate\n", out),
        Word::Unknown => write_word(b"0\tunknown\n", out),
        Word::Dead(m) => write_one(b"0\tdead\t", m, out),
        Word::Alive(m) => write_one(b"0\talive\t", m, out),
    }
}

// A refusal's number alone.
fn write_refusal(number: u32, out: &mut [u8]) -> Result<usize, Refusal>
    ensures { (said_in result ≡ fitting (one_number [] number) out.old) × (out.new ≡ filled (one_number [] number) out.old) }
{
    write_one(b"", u64::from(number), out)
}

// Writes the line of a step's answer at the front of the room, or nothing where it does not fit.
// Kept: the number of a refusal and not its name, since it takes any number, as its contract says (`said_with`).
// Kept: a match that calls: no plainer as a table of closures, because each arm hands on a value of its own type.
#[tactic(auto, using(crate::proofs::Lines::refusal_line), unfolding(messages::specs::Answers::said_with, messages::specs::Answers::given))]
pub fn write_answer(answer: Result<Answer, u32>, out: &mut [u8]) -> Result<usize, Refusal>
    ensures { (said_in result ≡ fitting (answer_line (said_with answer)) out.old) × (out.new ≡ filled (answer_line (said_with answer)) out.old) }
{
    match answer {
        Ok(Answer::Send(m)) => write_sent(m, out),
        Ok(Answer::Say(word)) => write_said(word, out),
        Err(number) => write_refusal(number, out),
    }
}

// The same for what a step answers: its refusal comes by name.
#[tactic(auto, unfolding(messages::specs::Answers::said, messages::specs::Answers::said_with))]
pub fn write_step_answer(answer: Result<Answer, Refusal>, out: &mut [u8]) -> Result<usize, Refusal>
    ensures { (said_in result ≡ fitting (answer_line (said answer)) out.old) × (out.new ≡ filled (answer_line (said answer)) out.old) }
{
    write_answer(answer.map_err(u32::from), out)
}

// Writes a value behind its tab and gives the next place.
// Kept: `out` and `at` apart: no plainer, because `put_bytes` and `put_number`, on which this stands, take them so.
fn put_value(out: &mut [u8], at: usize, value: u64) -> usize
    requires { at + length (value_part value) ≤ length out.old }
    ensures { (result ≡ at + length (value_part value)) × (out.new ≡ put_at out.old at (value_part value)) }
{
    let value_at = put_bytes(out, at, b"\t");
    put_number(out, value_at, value)
}

// Writes the line of accepted settings: no slack of theirs is below 0.
// Kept: the values one by one: no plainer, because a loop would need an array made of them, and a law of the bytes of its front.
fn write_values(accepted: Accepted, out: &mut [u8]) -> Result<usize, Refusal>
    ensures { (said_in result ≡ fitting (values_line accepted) out.old) × (out.new ≡ filled (values_line accepted) out.old) }
{
    let a = accepted.slacks.a.unsigned_abs();
    let b = accepted.slacks.b.unsigned_abs();
    let c = accepted.slacks.c.unsigned_abs();
    let numbers = digit_count(accepted.window) + digit_count(a) + digit_count(b) + digit_count(c);
    if out.len() < numbers + 6 {
        return Err(Refusal::WrongRoom);
    }
    let window_at = put_bytes(out, 0, b"0");
    let a_at = put_value(out, window_at, accepted.window);
    let b_at = put_value(out, a_at, a);
    let c_at = put_value(out, b_at, b);
    let end_at = put_value(out, c_at, c);
    Ok(put_bytes(out, end_at, b"\n"))
}

// The same for the line that answers the settings.
// Kept: a match that calls: no plainer with closures, because each arm hands on a value of its own type.
#[tactic(auto, using(crate::proofs::Lines::accepted_answer, crate::proofs::Lines::refused_answer))]
pub fn write_settings_answer(s: Settings, out: &mut [u8]) -> Result<usize, Refusal>
    ensures { (said_in result ≡ fitting (settings_answer s) out.old) × (out.new ≡ filled (settings_answer s) out.old) }
{
    match judge(s) {
        Ok(accepted) => write_values(accepted, out),
        Err(refusal) => write_refusal(u32::from(refusal), out),
    }
}
