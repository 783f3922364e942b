// The recorder: the party that drives while its leases hold. Serves rules 3. What a step is to do, and what every step keeps,
// stands in `recorder_rules`; whether a record has its form is `recorder_form`'s to say, and what every accepted step does with
// the open leases is `recorder_leases`'s to do.
#![tactic(auto)]

ghost use Rattle.std.specs.Prelude.{◌≡◌, ◌<◌};
ghost use Rattle.settings.specs.Settings.{most_observers};
ghost use Rattle.words.specs.Said.{first};
ghost use Rattle.refusals.specs.Refusals.{number_in};
ghost use Rattle.messages.specs.Answers.{given};
ghost use Rattle.messages.specs.Outcomes.{outcome, ◌leaving◌};
ghost use Rattle.recorder_rules.specs.Recorder.{step_refusals, standing, due, tick_event, grant_event, refusals_of, event_of, step_of};
ghost use Rattle.recorder.specs.Parts.{grant_lines, Roomy, Ready};

use messages::{Answer, Message, Stepped, Word, bad_reading};
use recorder_form::has_form;
use recorder_leases::{Advanced, advance, is_granted_above};
use recorder_rules::{Recorder, RecorderEvent};
use refusals::Refusal;
use settings::{Settings, less};

// What every step is handed besides its event: the settings, the record, and the reading.
#[derive(Clone, Copy)]
struct Turn {
    s: Settings,
    rec: Recorder,
    reading: u64,
}

impl Turn {
    // ---- Refusals

    // The table that every step has: refusals 1 to 4.
    #[tactic(auto, using(crate::proofs::Tables::step_refused, crate::proofs::Tables::step_decides), unfolding(words::specs::Said::first))]
    fn accept_step(self) -> Result<(), Refusal>
        ensures { number_in result ≡ first (step_refusals self.s self.rec self.reading) }
    {
        settings::accept(self.s)?;
        if !has_form(self.s, self.rec) {
            return Err(Refusal::NoForm);
        }
        if bad_reading(self.rec.last_reading, self.reading) {
            return Err(Refusal::BadReading);
        }
        Ok(())
    }

    // A grant's table goes on with refusals 5 and 6.
    #[tactic(auto, unfolding(words::specs::Said::first))]
    fn accept_grant(self, observer: u64, number: u64) -> Result<(), Refusal>
        ensures { number_in result ≡ first (grant_lines self.s self.rec observer number) }
    {
        if self.s.observers <= observer {
            return Err(Refusal::NoSuchObserver);
        }
        if (number == 0) | (self.rec.counter < number) {
            return Err(Refusal::BadCounter);
        }
        Ok(())
    }

    #[tactic(auto, using(crate::proofs::Tables::event_refused, crate::proofs::Tables::grant_decides))]
    fn accept(self, event: RecorderEvent) -> Result<(), Refusal>
        ensures { number_in result ≡ first (refusals_of self.s self.rec self.reading event) }
    {
        self.accept_step()?;
        match event {
            RecorderEvent::Grant(observer, number) => self.accept_grant(observer, number),
            RecorderEvent::Tick | RecorderEvent::Drive => Ok(()),
        }
    }

    // ---- Events

    // The word where no message is sent: rule 3.11.
    #[tactic(auto, unfolding(messages::specs::Answers::given, messages::specs::Answers::words_of, recorder_rules::specs::Recorder::standing, recorder_rules::specs::Recorder::registered))]
    fn answer(self) -> Answer
        ensures { given result ≡ standing self.s self.rec }
    {
        if is_granted_above(self.s, self.rec, 0) {
            Answer::Say(Word::Running)
        } else {
            Answer::Say(Word::Unregistered)
        }
    }

    // No message is sent, and the record stays as it is: all that a drive does.
    // Inlined, since a call of its own takes the turn by value: the C calls would take more stack than include/recorder.h says.
    #[tactic(auto, unfolding(messages::specs::Answers::said))]
    #[inline(always)]
    fn stand(self) -> Stepped<Recorder>
        ensures { outcome result ≡ (standing self.s self.rec leaving self.rec) }
    {
        Stepped {
            answer: Ok(self.answer()),
            rec: self.rec,
        }
    }

    // Is a lease request due at this tick?
    fn is_due(self) -> bool
        ensures { result ≡ due self.s self.rec self.reading }
    {
        (self.rec.counter == 0) | (self.s.interval <= less(self.reading, self.rec.last_send))
    }

    // Tick: rule 3.8. There is a place for the new lease, since no more than 63 can be open when it is due.
    #[tactic(auto, unfolding(recorder_rules::specs::Recorder::tick_event, messages::specs::Answers::said, messages::specs::Answers::given))]
    fn tick(self) -> Stepped<Recorder>
        requires { Roomy self.s self.rec self.reading }
        ensures { outcome result ≡ tick_event self.s self.reading self.rec }
    {
        if !self.is_due() {
            return self.stand();
        }
        let newest = self.rec.open_leases as usize;
        let mut asked = self.rec;
        asked.counter = self.rec.counter + 1;
        asked.last_send = self.reading;
        asked.open_leases = self.rec.open_leases + 1;
        asked.sends[newest] = self.reading;
        Stepped {
            answer: Ok(Answer::Send(Message::LeaseRequest(asked.counter))),
            rec: asked,
        }
    }

    // Grant: rule 3.9.
    #[tactic(auto, unfolding(recorder_rules::specs::Recorder::grant_event))]
    fn grant(self, observer: u64, number: u64) -> Stepped<Recorder>
        requires { observer < most_observers }
        ensures { outcome result ≡ grant_event self.s observer number self.rec }
    {
        let place = observer as usize;
        let mut raised = self;
        raised.rec.grants[place] = self.rec.grants[place].max(number);
        raised.stand()
    }

    // What the event does with the record at it, once the ended leases are gone. An accepted grant has its place.
    // Kept: a match, no plainer otherwise, because each event's method takes arguments of its own.
    #[tactic(auto, unfolding(recorder_rules::specs::Recorder::drive_event))]
    fn perform(self, event: RecorderEvent) -> Stepped<Recorder>
        requires { Ready self.s self.rec self.reading event }
        ensures { outcome result ≡ event_of self.s self.reading event self.rec }
    {
        match event {
            RecorderEvent::Tick => self.tick(),
            RecorderEvent::Grant(observer, number) => self.grant(observer, number),
            RecorderEvent::Drive => self.stand(),
        }
    }
}

// ---- Steps

// Refusals first (rule 2.2), then what every accepted step does, only then the event.
pub fn step(s: Settings, rec: Recorder, reading: u64, event: RecorderEvent) -> Stepped<Recorder>
    ensures { outcome result ≡ step_of s rec reading event }
{
    let turn = Turn { s, rec, reading };
    if let Err(refusal) = turn.accept(event) {
        return Stepped {
            answer: Err(refusal),
            rec,
        };
    }
    match advance(s, rec, reading) {
        Advanced::GoesOn(rec) => Turn { rec, ..turn }.perform(event),
        Advanced::Stopped(rec) => Stepped {
            answer: Ok(Answer::Say(Word::Stopped)),
            rec,
        },
    }
}
