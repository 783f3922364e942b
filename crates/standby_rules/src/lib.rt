// The standby's record and the rules of its steps. Serves rules 5: specs/Standby.antt says what each step does,
// specs/Claims.antt what every step keeps and what stands behind each verdict; the code is in `standby`.
#![tactic(auto)]

ghost use Rattle.std.specs.Prelude.{◌≡◌};
ghost use Rattle.standby_rules.specs.Standby.{closed};
ghost use Rattle.standby_rules.specs.Claims.{FormIsKept, ClosedIsZero, VerdictsHold, DeadInWindow, KeptStays};

use messages::Status;
use settings::MOST_OBSERVERS;

// What is kept of one observer's ack.
// Kept: flag and values, no Option: rule 5.2 refuses (3) an unused place that is not all 0 (`has_form`), and cases hand such in.
#[derive(Clone, Copy, PartialEq, Eq)]
pub struct Place {
    pub kept: bool,
    pub counter: u64,
    pub status: Status,
}

// Nothing is kept, all 0.
pub const UNUSED: Place = Place {
    kept: false,
    counter: 0,
    status: Status::Alive,
};

// Kept: flag and values, no Option: rule 5.2 refuses (3) a closed round that is not all 0 (`has_form`), and cases hand such in.
#[derive(Clone, Copy)]
pub struct Standby {
    pub open_flag: bool,
    pub ts: u64,
    pub last_reading: u64,
    // one place an observer, by number
    // Kept: as many places as there can be observers, those past n unused: fixed memory.
    pub places: [Place; MOST_OBSERVERS],
}

// No round is open, and nothing is kept: so a run starts, at reading 0, and so every round ends.
// Kept: written out, no plainer by a derived Default, which says of each place alone that it is 0, where this is one equation.
pub fn closed_round(reading: u64) -> Standby
    ensures { result ≡ closed reading }
{
    Standby {
        open_flag: false,
        ts: 0,
        last_reading: reading,
        places: [UNUSED; MOST_OBSERVERS],
    }
}

// What a standby is handed: rules 5.4 to 5.10.
#[derive(Clone, Copy)]
pub enum StandbyEvent {
    Begin,
    // the observer, the round's ts, the counter, and the status
    Ack(u64, u64, u64, Status),
    Poll,
}

// What every step keeps, and what stands behind each verdict.
pub fn form_is_kept()
    ensures { FormIsKept }
{}

pub fn closed_is_zero()
    ensures { ClosedIsZero }
{}

pub fn verdicts_hold()
    ensures { VerdictsHold }
{}

pub fn dead_in_window()
    ensures { DeadInWindow }
{}

pub fn kept_stays()
    ensures { KeptStays }
{}
