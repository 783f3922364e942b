// The observer's record and the rules of its steps. Serves rules 4: specs/Observer.antt says what each step does,
// specs/Claims.antt what every step keeps; the code is in `observer`.
#![tactic(auto)]

ghost use Rattle.observer_rules.specs.Claims.{FormIsKept, LatestNeverFalls, DeadlineFirst, GrantIsStored, DeadFromDeadline};

#[derive(Clone, Copy)]
pub struct Observer {
    // stored: the highest request granted, and until when its lease runs
    pub latest: u64,
    pub deadline: u64,
    // in memory: 0 after a restart
    pub last_reading: u64,
}

// What an observer is handed: rules 4.5 to 4.7.
#[derive(Clone, Copy)]
pub enum ObserverEvent {
    // the counter
    Request(u64),
    // the counter, and the number of stores that are done
    Cut(u64, u64),
    // the round's ts
    Check(u64),
}

// What every step keeps, whatever its event.
pub fn form_is_kept()
    ensures { FormIsKept }
{}

pub fn latest_never_falls()
    ensures { LatestNeverFalls }
{}

pub fn deadline_first()
    ensures { DeadlineFirst }
{}

pub fn grant_is_stored()
    ensures { GrantIsStored }
{}

pub fn dead_from_deadline()
    ensures { DeadFromDeadline }
{}
