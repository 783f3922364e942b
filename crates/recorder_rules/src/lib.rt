// The recorder's record and the rules of its steps. Serves rules 3: specs/Recorder.antt says what each step does,
// specs/Claims.antt what every step keeps; the code is in `recorder`.
#![tactic(auto)]

ghost use Rattle.std.specs.Prelude.{◌≡◌};
ghost use Rattle.recorder_rules.specs.Recorder.{fresh};
ghost use Rattle.recorder_rules.specs.Claims.{FormIsKept, StoppedStays, GrantsNeverFall, PlacesSuffice, NewestAreKept, EndedWereRenewed};

use settings::{MOST_LEASES, MOST_OBSERVERS};

// The record of rule 3.1, in its order: 85 numbers.
// Kept: numbers, with a flag and a count among them: the C interface hands in 85 words, and rule 3.2 judges any of them.
#[derive(Clone, Copy)]
pub struct Recorder {
    // 0, or 1 once the recorder has stopped for good
    pub stopped: u64,
    // the number of the last request
    pub counter: u64,
    pub last_send: u64,
    pub last_reading: u64,
    pub open_leases: u64,
    // send readings of the open leases, oldest first
    pub sends: [u64; MOST_LEASES],
    // highest grant from each observer
    pub grants: [u64; MOST_OBSERVERS],
}

// What a recorder is handed: rules 3.8 to 3.10.
#[derive(Clone, Copy)]
pub enum RecorderEvent {
    Tick,
    // the observer, and the number that it grants
    Grant(u64, u64),
    Drive,
}

// A run starts with every number 0.
// Kept: written out, no plainer by a derived Default, which says of each place alone that it is 0, where this is one equation.
pub fn fresh_recorder() -> Recorder
    ensures { result ≡ fresh }
{
    Recorder {
        stopped: 0,
        counter: 0,
        last_send: 0,
        last_reading: 0,
        open_leases: 0,
        sends: [0; MOST_LEASES],
        grants: [0; MOST_OBSERVERS],
    }
}

// What every step keeps, whatever its event.
pub fn form_is_kept()
    ensures { FormIsKept }
{}

pub fn stopped_stays()
    ensures { StoppedStays }
{}

pub fn grants_never_fall()
    ensures { GrantsNeverFall }
{}

pub fn places_suffice()
    ensures { PlacesSuffice }
{}

pub fn newest_are_kept()
    ensures { NewestAreKept }
{}

pub fn ended_were_renewed()
    ensures { EndedWereRenewed }
{}
