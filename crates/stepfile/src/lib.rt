// A step file in, its answers out, as bytes. Serves rules 7. The file is split into lines, each line performs one step on the
// session, and its answer is one line: what is written is a function of the input, `answers` of `stepfile_rules`.
#![tactic(auto)]

ghost use Rattle.std.specs.Prelude.{◌≡◌, ◌+◌, ◌*◌, ◌≤◌, ◌<◌, length, take, drop, position};
ghost use Rattle.words.specs.Tests.{◌=?◌};
ghost use Rattle.fields.specs.Places.{put_at};
ghost use Rattle.refusals.specs.Refusals.{said_in};
ghost use Rattle.session.specs.Session.{started};
ghost use Rattle.stepfile_rules.specs.Lines.{lines_of};
ghost use Rattle.stepfile_rules.specs.Parts.{line_length, length_said};
ghost use Rattle.stepfile_rules.specs.Files.{answers_to, answers_of, answered_said, answered_room};

use answer_lines::{write_settings_answer, write_step_answer};
use refusals::Refusal;
use session::{observer_at, start, with_observer};
use settings::{Settings, accept};
use step_lines::{StepLine, read_settings_line, read_step_line};

// The longest input.
pub const MOST_BYTES: usize = 65536;

// Where the first line feed stands.
fn line_feed(s: &[u8]) -> Option<usize>
    ensures { result ≡ position (λ byte. byte =? 10) s.now }
{
    s.iter().position(|byte| *byte == 10)
}

// The length of the line at the front, its line feed counted.
// Kept: a match: no plainer by `map_or`, in whose closure it is not known that `end + 1` fits.
fn line_length(s: &[u8]) -> usize
    ensures { result ≡ line_length s.now }
{
    match line_feed(s) {
        Some(end) => end + 1,
        None => s.len(),
    }
}

// The line at the front, and what stands behind it.
fn split_line(s: &[u8]) -> (&[u8], &[u8])
    ensures { (result.0.now ≡ take (line_length s.now) s.now) × (result.1.now ≡ drop (line_length s.now) s.now) }
{
    s.split_at(line_length(s))
}

// How much of the room the line has taken.
#[tactic(auto, unfolding(stepfile_rules::specs::Parts::length_said))]
fn length_of(written: Result<usize, Refusal>) -> usize
    ensures { result ≡ length_said (said_in written) }
{
    written.unwrap_or(0)
}

// Answers the step lines, writing from `begin` on, and gives the place behind the answers. The session's records are
// variables here, so that a line moves the record of its own party alone.
// Kept: `out` and `begin` apart: no plainer, because a struct of the two would serve this one function alone.
fn answer_steps(lines: &[u8], s: Settings, out: &mut [u8], begin: usize) -> usize
    requires { (length lines.now ≤ 65536) × (begin + 7 * length lines.now ≤ length out.old) }
    ensures { (result ≡ begin + length (answers_to (started s) (lines_of lines.now))) × (out.new ≡ put_at out.old begin (answers_to (started s) (lines_of lines.now))) }
{
    let begun = start(s);
    let mut rec = begun.recorder;
    let mut observers = begun.observers;
    let mut asking = begun.standby;
    let mut rest = lines;
    let mut at = begin;
    // Kept: tried, the proof did not close by `split_inclusive`: its clause speaks of each step, and not of all lines of a slice.
    while !rest.is_empty() {
        let (line, behind) = split_line(rest);
        let answer = match read_step_line(line) {
            Some(StepLine::Recorder(reading, event)) => {
                let done = recorder::step(s, rec, reading, event);
                rec = done.rec;
                done.answer
            }
            Some(StepLine::Observer(x, reading, event)) => {
                let done = observer::step(s, observer_at(observers, x), x, reading, event);
                // Kept: tried, the proof did not close: a call's array may not go straight into a variable of the loop.
                let placed = with_observer(observers, x, done.rec);
                observers = placed;
                done.answer
            }
            Some(StepLine::Standby(reading, event)) => {
                let done = standby::step(s, asking, reading, event);
                asking = done.rec;
                done.answer
            }
            None => Err(Refusal::BadLine),
        };
        at += length_of(write_step_answer(answer, &mut out[at..]));
        rest = behind;
    }
    at
}

// Answers the lines of an input that is not empty.
fn answer_lines_of(input: &[u8], out: &mut [u8]) -> usize
    requires { (0 < length input.now) × (length input.now ≤ 65536) × (7 * length input.now ≤ length out.old) }
    ensures { (result ≡ length (answers_of (lines_of input.now))) × (out.new ≡ put_at out.old 0 (answers_of (lines_of input.now))) }
{
    let (first, rest) = split_line(input);
    let Some(s) = read_settings_line(first) else {
        return length_of(write_step_answer(Err(Refusal::BadLine), out));
    };
    let at = length_of(write_settings_answer(s, out));
    let accepted = accept(s).is_ok();
    if accepted {
        answer_steps(rest, s, out, at)
    } else {
        at
    }
}

// The answers to a step file, written at the front of the room. With less room than is enough for every input of that length
// it writes nothing and answers 10.
pub fn answer_file(input: &[u8], out: &mut [u8]) -> Result<usize, Refusal>
    ensures { (said_in result ≡ answered_said input.now out.old) × (out.new ≡ answered_room input.now out.old) }
{
    if MOST_BYTES < input.len() {
        return write_step_answer(Err(Refusal::WrongRoom), out);
    }
    if out.len() < 7 * input.len() {
        return Err(Refusal::WrongRoom);
    }
    if input.is_empty() {
        return Ok(0);
    }
    Ok(answer_lines_of(input, out))
}
