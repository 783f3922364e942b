// What a line does: settings that are judged, steps that are performed on the records at hand, and what the other modules do.
use crate::rack::{Rack, numbers};
use crate::{lines_alone, show};
use refusals::Refusal;
use step_lines::StepLine;

impl Rack {
    // What the line does, by its first letter: it shows something, or changes the rack.
    // Kept: a match that calls: no plainer as a table, because the arms take a line, its numbers or the rack, as each needs.
    pub fn perform(&mut self, rt: &impl Print, line: &[u8]) {
        match line.first() {
            Some(b'#') => show::text(rt, line),
            Some(b'<') => lines_alone::read(rt, line),
            Some(b'w') => lines_alone::write(rt, numbers(line)),
            Some(b'S') => self.settle(rt, line),
            Some(b'R' | b'O' | b'Q') => self.step(rt, line),
            _ => self.set(rt, line),
        }
    }

    // The settings of the line, with their answer and their slacks.
    fn settle(&mut self, rt: &impl Print, line: &[u8]) {
        let Some(s) = step_lines::read_settings_line(line) else {
            return show::text(rt, b"no settings\n");
        };
        show::judged(rt, s);
        show::slacks(rt, s);
        self.settings = s;
    }

    // The step of the line.
    fn step(&mut self, rt: &impl Print, line: &[u8]) {
        let s = self.settings;
        match step_lines::read_step_line(line) {
            Some(StepLine::Recorder(reading, event)) => {
                let done = recorder::step(s, self.recorder, reading, event);
                self.recorder = show::stepped(rt, done);
            }
            Some(StepLine::Observer(x, reading, event)) => {
                let done = observer::step(s, self.observer, x, reading, event);
                // the same on a record that is lent
                let lent = observer_lent::lend_to_step(s, self.observer, x, reading, event);
                self.observer = show::stepped(rt, done);
                let _ = show::stepped(rt, lent);
            }
            Some(StepLine::Standby(reading, event)) => {
                let done = standby::step(s, self.standby, reading, event);
                self.standby = show::stepped(rt, done);
            }
            None => show::answer(rt, Err(Refusal::BadLine)),
        }
    }
}
