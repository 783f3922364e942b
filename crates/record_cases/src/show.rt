// Standard output for the cases: answers as `rackrun` writes them, and the numbers of a record. A write that fails needs no
// word: what arrives is compared with the file stdout.
use messages::{Answer, Stepped};
use observer_rules::Observer;
use recorder_rules::Recorder;
use refusals::Refusal;
use settings::{Settings, Slacks};
use standby_rules::Standby;

pub fn text(rt: &impl Print, bytes: &[u8]) {
    let _ = rt.write_all(bytes);
}

// What was written into the room, or why it was not.
pub fn line(rt: &impl Print, written: Result<usize, Refusal>, room: &[u8]) {
    let _ = match written {
        Ok(count) => rt.write_all(room.get(..count).unwrap_or(&[])),
        Err(refusal) => rt.println(u32::from(refusal)),
    };
}

// Kept: a room beside its count, here and below: fixed memory, no heap.
pub fn answer(rt: &impl Print, answer: Result<Answer, Refusal>) {
    let mut room = [0; 64];
    let written = answer_lines::write_step_answer(answer, &mut room);
    line(rt, written, &room);
}

// Kept: fixed memory, no heap.
pub fn judged(rt: &impl Print, s: Settings) {
    let mut room = [0; 96];
    let written = answer_lines::write_settings_answer(s, &mut room);
    line(rt, written, &room);
}

pub fn slacks(rt: &impl Print, s: Settings) {
    let _ = match settings::slacks_of(s) {
        Ok(Slacks { a, b, c }) => println!(rt; "slacks {a} {b} {c}"),
        Err(refusal) => println!(rt; "slacks {}", u32::from(refusal)),
    };
}

// A record, which is shown by some of its numbers.
pub trait Record {
    fn show(&self, rt: &impl Print);
}

// Stopped flag, counter, last send, last reading, open leases.
impl Record for Recorder {
    fn show(&self, rt: &impl Print) {
        let _ = println!(rt;
            "left {} {} {} {} {}",
            self.stopped, self.counter, self.last_send, self.last_reading, self.open_leases
        );
    }
}

// Latest, deadline, last reading.
impl Record for Observer {
    fn show(&self, rt: &impl Print) {
        let _ = println!(rt;
            "left {} {} {}",
            self.latest, self.deadline, self.last_reading
        );
    }
}

// Open or closed, ts, last reading.
impl Record for Standby {
    fn show(&self, rt: &impl Print) {
        let open = if self.open_flag { "open" } else { "closed" };
        let _ = println!(rt; "left {open} {} {}", self.ts, self.last_reading);
    }
}

// What a step answers and the record that it leaves, which is handed on.
pub fn stepped<R: Record + Copy>(rt: &impl Print, done: Stepped<R>) -> R {
    answer(rt, done.answer);
    done.rec.show(rt);
    done.rec
}
