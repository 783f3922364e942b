// The form of a standby's record: what a step tests of it before it looks at anything else. Serves rules 5.2.
#![tactic(auto)]

ghost use Rattle.std.specs.Prelude.{◌≡◌, drop};
ghost use Rattle.words.specs.Lists.{every};
ghost use Rattle.standby_rules.specs.Standby.{is_dead, is_unused, good_place, kept_marks, has_form};

use messages::{Status, TOP_COUNTER, TOP_READING};
use settings::{MOST_OBSERVERS, Settings};
use standby_rules::{Place, Standby, UNUSED};

// Kept: the derived equality under a name: the verdict asks it, and docs/PROMISES.md names it as a part of the step.
#[tactic(auto, unfolding(standby_rules::specs::Standby::is_dead))]
pub fn is_dead(status: Status) -> bool
    ensures { result ≡ is_dead status }
{
    status == Status::Dead
}

// Nothing is kept, all 0.
fn is_unused(place: Place) -> bool
    ensures { result ≡ is_unused place }
{
    place == UNUSED
}

#[tactic(auto, unfolding(standby_rules::specs::Standby::good_place))]
fn is_good(place: Place) -> bool
    ensures { result ≡ good_place place }
{
    is_unused(place) | (place.kept & (place.counter <= TOP_COUNTER))
}

fn all_good(places: [Place; MOST_OBSERVERS]) -> bool
    ensures { result ≡ every good_place places }
{
    places.iter().all(|place| is_good(*place))
}

// Are the places from `start` on unused? So they are where none is left.
fn unused_from(places: [Place; MOST_OBSERVERS], start: usize) -> bool
    ensures { result ≡ every is_unused (drop start places) }
{
    places.iter().skip(start).all(|place| is_unused(*place))
}

// The observers whose acks are kept.
// Kept: an array of marks by number, which `quorums` takes: fixed memory.
pub fn kept_marks(places: [Place; MOST_OBSERVERS]) -> [bool; MOST_OBSERVERS]
    ensures { result ≡ kept_marks places }
{
    places.map(|place| place.kept)
}

// Rule 5.2, the conditions in their order.
#[tactic(auto, unfolding(standby_rules::specs::Standby::has_form, standby_rules::specs::Standby::form))]
pub fn has_form(s: Settings, q: Standby) -> bool
    ensures { result ≡ has_form s q }
{
    let marks = kept_marks(q.places);
    let conditions = [
        q.open_flag | ((q.ts == 0) & unused_from(q.places, 0)),
        !q.open_flag | (q.ts <= q.last_reading),
        q.last_reading <= TOP_READING,
        !quorums::contains_query_quorum(s, marks),
        all_good(q.places),
        unused_from(q.places, s.observers as usize),
    ];
    conditions.iter().all(|holds| *holds)
}
