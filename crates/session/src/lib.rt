// A rack between two lines of a step file: the settings and every party's record. Serves rules 7.5 and 7.9. What a line's step
// does to them stands in specs/; the steps are the parties' own.
#![tactic(auto)]

ghost use Rattle.std.specs.Prelude.{◌≡◌, set};
ghost use Rattle.observer_rules.specs.Observer.{fresh as freshObserver};
ghost use Rattle.session.specs.Session.{started, observer_at};

use observer_rules::Observer;
use recorder_rules::{Recorder, fresh_recorder};
use settings::{MOST_OBSERVERS, Settings};
use standby_rules::{Standby, closed_round};

// Kept: `observers` is an array: an observer's number is its place, and none above 15 has a record (rule 7.5): fixed memory.
#[derive(Clone, Copy)]
pub struct Session {
    pub settings: Settings,
    pub recorder: Recorder,
    // by number
    pub observers: [Observer; MOST_OBSERVERS],
    pub standby: Standby,
}

// Kept: no plainer by a derived Default, which says of each field alone that it is 0, where this is one equation.
fn fresh_observer() -> Observer
    ensures { result ≡ freshObserver }
{
    Observer {
        latest: 0,
        deadline: 0,
        last_reading: 0,
    }
}

// A run starts with every field of every record 0.
// Kept: an array of observers, as in `Session`: fixed memory.
pub fn start(s: Settings) -> Session
    ensures { result ≡ started s }
{
    Session {
        settings: s,
        recorder: fresh_recorder(),
        observers: [fresh_observer(); MOST_OBSERVERS],
        standby: closed_round(0),
    }
}

// The record of observer x. No record has a number above 15: a step for one is refused, and is tried on a fresh one.
pub fn observer_at(observers: [Observer; MOST_OBSERVERS], x: u64) -> Observer
    ensures { result ≡ observer_at observers x }
{
    let kept = observers.get(x as usize).copied();
    kept.unwrap_or(fresh_observer())
}

// The records with that of observer x as it was left.
// Kept: an array of observers, as in `Session`: fixed memory.
pub fn with_observer(
    observers: [Observer; MOST_OBSERVERS],
    x: u64,
    left: Observer,
) -> [Observer; MOST_OBSERVERS]
    ensures { result ≡ set observers x left }
{
    let mut next = observers;
    // Kept: tried `get_mut`, the proof did not close: what the array holds behind a written `&mut` of `get_mut` is not known.
    if x < MOST_OBSERVERS as u64 {
        next[x as usize] = left;
    }
    next
}
