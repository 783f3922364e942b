// The open leases: what every accepted step does with them before its event. Serves rules 3.4 to 3.7, and has the quorum of
// grants that 3.11 asks for too. Nothing is required of the record: what is ensured holds of any.
#![tactic(auto)]

ghost use Rattle.std.specs.Prelude.{◌≡◌, map, ◌+◌};
ghost use Rattle.words.specs.Tests.{◌<?◌};
ghost use Rattle.quorums.specs.Quorums.{survives};
ghost use Rattle.recorder_rules.specs.Recorder.{granted};
ghost use Rattle.recorder_leases.specs.Advanced.{advanced_to};
ghost use Rattle.recorder_leases.specs.Parts.{sifted};

use quorums::contains_survival_quorum;
use recorder_rules::Recorder;
use settings::{MOST_LEASES, MOST_OBSERVERS, Settings, less};

// The open leases that have not ended, in their places.
// Kept: a count beside the places, as in the record that they go into: the C interface.
#[derive(Clone, Copy)]
struct Left {
    count: u64,
    sends: [u64; MOST_LEASES],
}

// The record at a step's event, or that of a recorder that has stopped.
#[derive(Clone, Copy)]
pub enum Advanced {
    GoesOn(Recorder),
    Stopped(Recorder),
}

// The observers that have granted more than `number`.
// Kept: a loop over places: `grants.map` proves, but misses the bar of speed (docs/FIGURES.md, 1.17 to 1.32 times the twin's time where
// 64 leases end at one step): with it `bench/firmware` gave 3.6, with the loop 1.1, and 0.54 since
// `quorums` counts all marks at once.
fn granted_above(grants: [u64; MOST_OBSERVERS], number: u64) -> [bool; MOST_OBSERVERS]
    ensures { result ≡ map (λ grant. number <? grant) grants }
{
    let mut set = [false; MOST_OBSERVERS];
    for i in 0..MOST_OBSERVERS {
        set[i] = number < grants[i];
    }
    set
}

// Has a survival quorum granted `number` + 1 or higher?
pub fn is_granted_above(s: Settings, rec: Recorder, number: u64) -> bool
    ensures { result ≡ survives s (granted rec (number + 1)) }
{
    contains_survival_quorum(s, granted_above(rec.grants, number))
}

// Each open lease i with reading - send ≥ P has ended: lease i + 1 must then have its grants. Gives the leases that have not
// ended, or None where one that has lacks them. One pass; a quorum is counted only for leases that have ended.
// Kept: `sends` with its count beside it, as in the record that they go into: the C interface.
// Kept: `enumerate`: no plainer without i, because a lease's number is made of it.
fn sift(s: Settings, rec: Recorder, reading: u64) -> Option<Left>
    ensures { result ≡ sifted s rec reading }
{
    let open = rec.open_leases.min(MOST_LEASES as u64) as usize;
    let mut count: usize = 0;
    let mut sends = [0u64; MOST_LEASES];
    for (i, send) in rec.sends[..open].iter().enumerate() {
        if s.recorder_lease <= less(reading, *send) {
            let number = less(rec.counter, rec.open_leases) + (i as u64) + 1;
            if !is_granted_above(s, rec, number) {
                return None;
            }
        } else {
            sends[count] = *send;
            count += 1;
        }
    }
    Some(Left {
        count: count as u64,
        sends,
    })
}

// Stopped first, then the ended leases: only a step that goes on from here comes to its event.
#[tactic(auto, unfolding(crate::specs::Advanced::advanced_to, crate::specs::Parts::sifted, recorder_rules::specs::Recorder::advanced))]
pub fn advance(s: Settings, rec: Recorder, reading: u64) -> Advanced
    ensures { result ≡ advanced_to s rec reading }
{
    if rec.stopped != 0 {
        return Advanced::Stopped(rec);
    }
    match sift(s, rec, reading) {
        None => {
            let mut halted = rec;
            halted.stopped = 1;
            halted.last_reading = reading;
            Advanced::Stopped(halted)
        }
        Some(left) => {
            let sends = left.sends;
            let mut cleared = rec;
            cleared.last_reading = reading;
            cleared.open_leases = left.count;
            cleared.sends = sends;
            Advanced::GoesOn(cleared)
        }
    }
}
