// The settings and records that the cases hand in, and the lines that set them.
use crate::show::Record;
use decimals::read_number;
use fields::part_from;
use messages::Status;
use observer_rules::Observer;
use recorder_rules::Recorder;
use settings::{MOST_LEASES, MOST_OBSERVERS, Settings, settings_of};
use standby_rules::{Place, Standby, UNUSED};

#[derive(Clone, Copy)]
pub struct Rack {
    pub settings: Settings,
    pub recorder: Recorder,
    pub observer: Observer,
    pub standby: Standby,
}

// The number of the line that stands at `at`, and the place behind its tab.
fn number_at(line: &[u8], at: usize) -> Option<(u64, usize)> {
    let number = read_number(part_from(line, at), true, u64::MAX).ok()?;
    let end = at.saturating_add(number.length);
    Some((number.value, end.saturating_add(1)))
}

// The numbers behind the line's letter, each behind one tab; 0 for one that is not there, and for those after it.
// Kept: an array that is filled: fixed memory, no heap.
pub fn numbers(line: &[u8]) -> [u64; 7] {
    let mut found = [0; 7];
    let mut at: usize = 2;
    for number in &mut found {
        let Some((value, behind)) = number_at(line, at) else {
            break;
        };
        *number = value;
        at = behind;
    }
    found
}

// Kept: a record's places are arrays: the C interface, and fixed memory.
fn recorder_of(v: [u64; 7]) -> Recorder {
    Recorder {
        stopped: v[0],
        counter: v[1],
        last_send: v[2],
        last_reading: v[3],
        open_leases: v[4],
        sends: [0; MOST_LEASES],
        grants: [0; MOST_OBSERVERS],
    }
}

fn observer_of(v: [u64; 7]) -> Observer {
    Observer {
        latest: v[0],
        deadline: v[1],
        last_reading: v[2],
    }
}

pub fn status_of(number: u64) -> Status {
    if number == 1 {
        Status::Dead
    } else {
        Status::Alive
    }
}

fn place_of(kept: u64, counter: u64, dead: u64) -> Place {
    Place {
        kept: kept == 1,
        counter,
        status: status_of(dead),
    }
}

// Kept: a record's places are an array: fixed memory, no heap.
fn standby_of(v: [u64; 7]) -> Standby {
    Standby {
        open_flag: v[0] == 1,
        ts: v[1],
        last_reading: v[2],
        places: [UNUSED; MOST_OBSERVERS],
    }
}

// What the cases begin with.
impl Default for Rack {
    fn default() -> Rack {
        Rack {
            settings: settings_of([3, 2, 100, 40, 159, 235, 10]),
            recorder: recorder_of([0; 7]),
            observer: observer_of([0; 7]),
            standby: standby_of([0; 7]),
        }
    }
}

// Stores a value at a place of a row. A place that the row does not have changes nothing.
fn store<T: Copy, const N: usize>(row: &mut [T; N], place: u64, value: T) {
    let place = place as usize;
    if place < N {
        row[place] = value;
    }
}

impl Rack {
    // Does what a line that sets a record, or a part of one, says.
    // Kept: a match that calls: no plainer as a table, because each letter sets a place of another type.
    pub fn set(&mut self, rt: &impl Print, line: &[u8]) {
        let v = numbers(line);
        match line.first() {
            Some(b'r') => self.recorder = recorder_of(v),
            Some(b's') => store(&mut self.recorder.sends, v[0], v[1]),
            Some(b'g') => store(&mut self.recorder.grants, v[0], v[1]),
            Some(b'o') => self.observer = observer_of(v),
            Some(b'z') => {
                self.observer = observer::restart(self.observer);
                self.observer.show(rt);
            }
            Some(b'q') => self.standby = standby_of(v),
            Some(b'p') => store(&mut self.standby.places, v[0], place_of(v[1], v[2], v[3])),
            _ => {}
        }
    }
}
