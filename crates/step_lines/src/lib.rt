// The lines of a step file, read into what they ask for. Serves rules 7.2 to 7.4.
// Each field is read from the part of the line that begins where the field begins. Numbers go to 2^64 - 1: the steps test
// the ranges. What is no line of the forms reads as `None`.
#![tactic(auto)]

ghost use Rattle.std.specs.Prelude.{◌≡◌, ◌<◌, ◌≤◌, option_map};
ghost use Rattle.step_lines.specs.Rows.{tabbed_number, row};
ghost use Rattle.step_lines.specs.Reading.{behind_row, last_numbers, settings_numbers, settings_line, grant_numbers, recorder_event, cut_numbers, request_end, request_numbers, check_numbers, observer_event, ack_numbers, standby_event, step_line};

use decimals::read_number;
use fields::{after, is_exactly, part_from};
use messages::Status;
use observer_rules::ObserverEvent;
use recorder_rules::RecorderEvent;
use settings::{Settings, settings_of};
use standby_rules::StandbyEvent;

// What a step line asks for: whose step it is, with the party's reading, and an observer's number before that.
#[derive(Clone, Copy)]
pub enum StepLine {
    Recorder(u64, RecorderEvent),
    Observer(u64, u64, ObserverEvent),
    Standby(u64, StandbyEvent),
}

// Numbers in a row, each behind one tab: the place behind them, and the numbers.
// Kept: an array: fixed memory, and its type says how many numbers there are, so that no count stands beside them.
#[derive(Clone, Copy)]
pub struct Row<const N: usize> {
    pub behind: usize,
    pub numbers: [u64; N],
}

// A number of a row, and the place behind it.
#[derive(Clone, Copy)]
struct Tabbed {
    value: u64,
    behind: usize,
}

// The number behind the tab at `at`.
#[tactic(auto, unfolding(crate::specs::Rows::tabbed_number, fields::specs::Places::behind))]
fn number_behind(s: &[u8], at: usize) -> Option<Tabbed>
    ensures { result ≡ tabbed_number s.now at }
{
    let part = after(part_from(s, at), b"\t")?;
    let number = read_number(part, true, u64::MAX).ok()?;
    Some(Tabbed {
        value: number.value,
        behind: at + 1 + number.length,
    })
}

// The numbers at the front, `N` of them.
fn row_of<const N: usize>(s: &[u8]) -> Option<Row<N>>
    ensures { result ≡ row s.now N }
{
    // Kept: an array that a loop fills: fixed memory, and how many there are is in its type.
    let mut numbers = [0; N];
    let mut behind = 0;
    for number in &mut numbers {
        let found = number_behind(s, behind)?;
        *number = found.value;
        behind = found.behind;
    }
    Some(Row { behind, numbers })
}

// The numbers at the front, `N` of them, and what stands behind them. Here and below `N` has its bound, since a row takes
// memory by it.
fn numbers_of<const N: usize>(s: &[u8]) -> Option<([u64; N], &[u8])>
    requires { N ≤ 7 }
    ensures numbers { option_map (λ found. found.0) result ≡ option_map (λ v. v.numbers) (row s.now N) }
    ensures rest { option_map (λ found. found.1.now) result ≡ option_map (λ v. behind_row s.now v) (row s.now N) }
{
    let row = row_of(s)?;
    let numbers = row.numbers;
    let rest = part_from(s, row.behind);
    Some((numbers, rest))
}

// The numbers of a row that the line feed ends.
// Kept: `row_of` and not `numbers_of`: tried, the proof did not close: `?` on its pair is not covered where N is a parameter.
#[tactic(auto, unfolding(crate::specs::Reading::closed_by, crate::specs::Reading::last_numbers))]
fn last_numbers<const N: usize>(s: &[u8]) -> Option<[u64; N]>
    requires { N ≤ 7 }
    ensures { result ≡ last_numbers s.now (row s.now N) }
{
    let row = row_of(s)?;
    if is_exactly(part_from(s, row.behind), b"\n") {
        Some(row.numbers)
    } else {
        None
    }
}

#[tactic(auto, unfolding(crate::specs::Reading::last_numbers, crate::specs::Reading::settings_numbers))]
fn settings_numbers(s: &[u8]) -> Option<Settings>
    ensures { result ≡ settings_numbers s.now (row s.now 7) }
{
    Some(settings_of(last_numbers::<7>(s)?))
}

// The settings that a first line gives.
#[tactic(auto, unfolding(crate::specs::Reading::settings_line, fields::specs::Places::behind))]
pub fn read_settings_line(s: &[u8]) -> Option<Settings>
    ensures { result ≡ settings_line s.now }
{
    settings_numbers(after(s, b"SETTINGS")?)
}

#[tactic(auto, unfolding(crate::specs::Reading::last_numbers, crate::specs::Reading::grant_numbers))]
fn grant_numbers(s: &[u8]) -> Option<RecorderEvent>
    ensures { result ≡ grant_numbers s.now (row s.now 2) }
{
    let [observer, number] = last_numbers::<2>(s)?;
    Some(RecorderEvent::Grant(observer, number))
}

// Kept: no plainer as one with `standby_event`: that takes three words, two events and a closure, to say two `if`s and an `after`.
#[tactic(auto, unfolding(crate::specs::Reading::recorder_event, fields::specs::Places::behind))]
fn recorder_event(s: &[u8]) -> Option<RecorderEvent>
    ensures { result ≡ recorder_event s.now }
{
    if is_exactly(s, b"\ttick\n") {
        return Some(RecorderEvent::Tick);
    }
    if is_exactly(s, b"\tdrive\n") {
        return Some(RecorderEvent::Drive);
    }
    grant_numbers(after(s, b"\tgrant")?)
}

#[tactic(auto, unfolding(crate::specs::Reading::last_numbers, crate::specs::Reading::cut_numbers))]
fn cut_numbers(counter: u64, s: &[u8]) -> Option<ObserverEvent>
    ensures { result ≡ cut_numbers counter s.now (row s.now 1) }
{
    let [cut] = last_numbers::<1>(s)?;
    Some(ObserverEvent::Cut(counter, cut))
}

#[tactic(auto, unfolding(crate::specs::Reading::request_end, fields::specs::Places::behind))]
fn request_end(counter: u64, s: &[u8]) -> Option<ObserverEvent>
    ensures { result ≡ request_end counter s.now }
{
    if is_exactly(s, b"\n") {
        return Some(ObserverEvent::Request(counter));
    }
    cut_numbers(counter, after(s, b"\tcut")?)
}

#[tactic(auto, unfolding(crate::specs::Reading::request_numbers))]
fn request_numbers(s: &[u8]) -> Option<ObserverEvent>
    ensures { result ≡ request_numbers s.now (row s.now 1) }
{
    let ([counter], rest) = numbers_of::<1>(s)?;
    request_end(counter, rest)
}

#[tactic(auto, unfolding(crate::specs::Reading::last_numbers, crate::specs::Reading::check_numbers))]
fn check_numbers(s: &[u8]) -> Option<ObserverEvent>
    ensures { result ≡ check_numbers s.now (row s.now 1) }
{
    let [ts] = last_numbers::<1>(s)?;
    Some(ObserverEvent::Check(ts))
}

#[tactic(auto, unfolding(crate::specs::Reading::observer_event, fields::specs::Places::behind))]
fn observer_event(s: &[u8]) -> Option<ObserverEvent>
    ensures { result ≡ observer_event s.now }
{
    if let Some(request) = after(s, b"\trequest") {
        return request_numbers(request);
    }
    check_numbers(after(s, b"\tcheck")?)
}

#[tactic(auto, unfolding(crate::specs::Reading::closed_by, crate::specs::Reading::ack_numbers))]
fn ack_numbers(s: &[u8]) -> Option<StandbyEvent>
    ensures { result ≡ ack_numbers s.now (row s.now 3) }
{
    let ([x, ts, counter], rest) = numbers_of::<3>(s)?;
    if is_exactly(rest, b"\tAlive\n") {
        return Some(StandbyEvent::Ack(x, ts, counter, Status::Alive));
    }
    if is_exactly(rest, b"\tDead\n") {
        return Some(StandbyEvent::Ack(x, ts, counter, Status::Dead));
    }
    None
}

// Kept: no plainer as one with `recorder_event`: that takes three words, two events and a closure, to say two `if`s and an `after`.
#[tactic(auto, unfolding(crate::specs::Reading::standby_event, fields::specs::Places::behind))]
fn standby_event(s: &[u8]) -> Option<StandbyEvent>
    ensures { result ≡ standby_event s.now }
{
    if is_exactly(s, b"\tbegin\n") {
        return Some(StandbyEvent::Begin);
    }
    if is_exactly(s, b"\tpoll\n") {
        return Some(StandbyEvent::Poll);
    }
    ack_numbers(after(s, b"\tack")?)
}

// What a step line asks for.
#[tactic(auto, unfolding(crate::specs::Reading::step_line, crate::specs::Reading::recorder_numbers, crate::specs::Reading::observer_numbers, crate::specs::Reading::standby_numbers, fields::specs::Places::behind))]
pub fn read_step_line(s: &[u8]) -> Option<StepLine>
    ensures { result ≡ step_line s.now }
{
    if let Some(rest) = after(s, b"R") {
        let ([reading], event) = numbers_of::<1>(rest)?;
        return Some(StepLine::Recorder(reading, recorder_event(event)?));
    }
    if let Some(rest) = after(s, b"O") {
        let ([x, reading], event) = numbers_of::<2>(rest)?;
        return Some(StepLine::Observer(x, reading, observer_event(event)?));
    }
    let ([reading], event) = numbers_of::<1>(after(s, b"Q")?)?;
    Some(StepLine::Standby(reading, standby_event(event)?))
}
