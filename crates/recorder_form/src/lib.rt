// The form of a recorder's record: what a step tests of it before it looks at anything else. Serves rules 3.2.
#![tactic(auto)]

ghost use Rattle.std.specs.Prelude.{◌≡◌, ◌-◌, drop, zip};
ghost use Rattle.words.specs.Tests.{◌<?◌, ◌≤?◌};
ghost use Rattle.words.specs.Lists.{every};
ghost use Rattle.recorder_rules.specs.Recorder.{is_zero, has_form};

use messages::{TOP_COUNTER, TOP_READING};
use recorder_rules::Recorder;
use settings::{MOST_LEASES, Settings, less};

// Are the places from `first` on unused?
fn are_unused(places: &[u64], first: usize) -> bool
    ensures { result ≡ every is_zero (drop first places.now) }
{
    places.iter().skip(first).all(|number| *number == 0)
}

fn are_at_most(grants: &[u64], counter: u64) -> bool
    ensures { result ≡ every (λ grant. grant ≤? counter) grants.now }
{
    grants.iter().all(|grant| *grant <= counter)
}

// Is each send reading at least `interval` after the one before it?
fn are_apart(leases: &[u64], interval: u64) -> bool
    ensures { result ≡ every (λ pair. interval ≤? pair.1 - pair.0) (zip leases.now (drop 1 leases.now)) }
{
    let later = leases.iter().skip(1);
    leases
        .iter()
        .zip(later)
        .all(|(send, next)| interval <= less(*next, *send))
}

// Are the leases younger than `lease` at a reading?
fn are_young(leases: &[u64], lease: u64, reading: u64) -> bool
    ensures { result ≡ every (λ send. reading - send <? lease) leases.now }
{
    leases.iter().all(|send| less(reading, *send) < lease)
}

// The conditions in their order. Where the counter is 0 the places' own conditions leave only the numbers to be seen.
pub fn has_form(s: Settings, rec: Recorder) -> bool
    ensures { result ≡ has_form s rec }
{
    if (MOST_LEASES as u64) < rec.open_leases {
        return false;
    }
    let count = rec.open_leases as usize;
    let leases = &rec.sends[..count];
    let newest = count.saturating_sub(1);
    (rec.counter <= TOP_COUNTER)
        & (rec.stopped <= 1)
        & ((rec.counter != 0)
            | ((rec.stopped == 0) & (rec.last_send == 0) & (rec.open_leases == 0)))
        & are_unused(&rec.sends, count)
        & are_unused(&rec.grants, s.observers as usize)
        & are_at_most(&rec.grants, rec.counter)
        & ((rec.counter == 0) | (1 <= rec.open_leases))
        & (rec.open_leases <= rec.counter)
        & are_apart(leases, s.interval)
        & ((rec.counter == 0) | (rec.sends[newest] == rec.last_send))
        & (less(rec.counter, 1) <= rec.last_send)
        & (rec.last_send <= rec.last_reading)
        & (rec.last_reading <= TOP_READING)
        & ((rec.stopped != 0) | are_young(leases, s.recorder_lease, rec.last_reading))
}
