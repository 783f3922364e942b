// Executes what no step file shows: records that the case hands in, of their form or not, the record that a step leaves, steps
// under settings that are refused, the lent observer, slacks, messages and lines on their own. Serves rules 1 to 6. The cases
// are the file stdin, one a line, and what each gives is the file stdout, written by hand from the rules.
//
// A line's first letter says what it is; tabs part what follows:
//   #  a heading, which is copied
//   S  `SETTINGS` and the seven numbers, in force from here on: gives the settings' answer, then their slacks
//   r  stopped flag, counter, last send, last reading, open leases: the recorder's record, its places 0
//   s  g  place and value: one of its send readings, one of its grants
//   o  latest, deadline, last reading: the observer's record
//   z  the observer restarts: gives the numbers of its record
//   q  open flag, ts, last reading: the standby's record, its places unused
//   p  place, kept mark, counter, 1 for Dead: one of its places
//   R  O  Q  a step, as in a step file: gives the answer, then numbers of the record; an observer's step is done by value and on
//      a lent record
//   w  room, message (0 to 3 in the order of rule 6.2), its numbers, 1 for Dead: writes its line into so much room
//   <  a message line, `$` for its line feed: gives the message, or the refusal
#![tactic(auto)]

mod act;
mod lines_alone;
mod rack;
mod show;

use rack::Rack;
use streams::read_input;

fn run(rt: &impl Print, input: &[u8]) {
    let mut held = Rack::default();
    for line in input.split_inclusive(|byte| *byte == b'\n') {
        held.perform(rt, line);
    }
}

fn main(rt: HostRuntime) {
    // Kept: a room beside its count: fixed memory, no heap.
    let mut room: [u8; 65536] = [0; 65536];
    if let Ok(count) = read_input(&rt, b"record_cases", &mut room) {
        run(&rt, &room[..count]);
    }
}
