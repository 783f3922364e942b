// The standby: it asks the observers whether the recorder is dead. Serves rules 5. What a step is to do, and what every step
// keeps, stands in `standby_rules`; whether a record has its form is `standby_form`'s to say.
#![tactic(auto)]

ghost use Rattle.std.specs.Prelude.{◌≡◌, not, [], ◌∷◌, ◌++◌, ◌<◌};
ghost use Rattle.words.specs.Lists.{some};
ghost use Rattle.words.specs.Said.{first, ◌when◌};
ghost use Rattle.refusals.specs.Refusals.{number_in};
ghost use Rattle.settings.specs.Settings.{most_observers, window, refusals};
ghost use Rattle.messages.specs.Answers.{speaks, words_of, says};
ghost use Rattle.messages.specs.Outcomes.{◌leaving◌, outcome};
ghost use Rattle.standby_rules.specs.Standby.{has_form, closed, at_reading, says_dead, verdict, begin_refusals, ack_refusals, poll_refusals, is_late, after_keeping, begin_event, ack_event, poll_event, refusals_of, event_within, step_of};
ghost use Rattle.standby.specs.Parts.{Ready, greatest_by_chain};

use messages::{Answer, Message, Status, Stepped, TOP_COUNTER, TOP_READING, Word, bad_reading};
use refusals::Refusal;
use settings::{MOST_OBSERVERS, Settings};
use standby_form::{has_form, is_dead, kept_marks};
use standby_rules::{Place, Standby, StandbyEvent, closed_round};

// m, the greatest counter of a kept ack, or 0.
// Kept: a fold: no plainer by `.max().unwrap_or(0)`, since m is 0 where nothing is kept, which is what the fold begins with.
fn greatest_kept(places: [Place; MOST_OBSERVERS]) -> u64
    ensures { result ≡ greatest_by_chain places }
{
    places
        .iter()
        .filter(|place| place.kept)
        .map(|place| place.counter)
        .fold(0, |most, counter| most.max(counter))
}

// Does some kept ack say Dead with m?
#[tactic(auto, unfolding(standby_rules::specs::Standby::is_dead))]
fn some_dead(places: [Place; MOST_OBSERVERS], m: u64) -> bool
    ensures { result ≡ some (says_dead m) places }
{
    places.iter().any(|place| place.kept & is_dead(place.status) & (place.counter == m))
}

// The verdict at a quorum: the greatest counter decides, never a count of statuses.
// Kept: a match: no plainer otherwise, because it chooses a word by m and by a test, not a function by a kind.
#[tactic(auto, using(crate::proofs::Greatest::chain_is_greatest), unfolding(standby_rules::specs::Standby::verdict, messages::specs::Answers::words_of))]
fn judge(places: [Place; MOST_OBSERVERS]) -> Word
    ensures { speaks (words_of result) ≡ verdict places }
{
    match greatest_kept(places) {
        0 => Word::Unknown,
        m if some_dead(places, m) => Word::Dead(m),
        m => Word::Alive(m),
    }
}

// A step that says a word and sends nothing.
#[tactic(auto, unfolding(messages::specs::Answers::said, messages::specs::Answers::given))]
fn saying(word: Word, rec: Standby) -> Stepped<Standby>
    ensures { outcome result ≡ (speaks (words_of word) leaving rec) }
{
    Stepped {
        answer: Ok(Answer::Say(word)),
        rec,
    }
}

// What every step is handed besides its event: the settings, the record, and the reading.
#[derive(Clone, Copy)]
struct Turn {
    s: Settings,
    q: Standby,
    reading: u64,
}

impl Turn {
    // Refusals 1 to 3, which every step tests first.
    #[tactic(auto, unfolding(words::specs::Said::first, settings::specs::Settings::refusal_of))]
    fn accept_record(self) -> Result<(), Refusal>
        ensures { number_in result ≡ first (refusals self.s ++ (3 when not (has_form self.s self.q) ∷ [])) }
    {
        settings::accept(self.s)?;
        if !has_form(self.s, self.q) {
            return Err(Refusal::NoForm);
        }
        Ok(())
    }

    #[tactic(auto, unfolding(words::specs::Said::first))]
    fn accept_begin(self) -> Result<(), Refusal>
        ensures { number_in result ≡ first (begin_refusals self.s self.q self.reading) }
    {
        self.accept_record()?;
        if bad_reading(self.q.last_reading, self.reading) {
            return Err(Refusal::BadReading);
        }
        Ok(())
    }

    #[tactic(auto, using(crate::proofs::Tables::ack_refused, crate::proofs::Tables::ack_decides), unfolding(words::specs::Said::first))]
    fn accept_ack(self, observer: u64, ts: u64, counter: u64) -> Result<(), Refusal>
        ensures { number_in result ≡ first (ack_refusals self.s self.q self.reading observer ts counter) }
    {
        self.accept_record()?;
        if bad_reading(self.q.last_reading, self.reading) | (TOP_READING < ts) {
            return Err(Refusal::BadReading);
        }
        if self.s.observers <= observer {
            return Err(Refusal::NoSuchObserver);
        }
        if TOP_COUNTER < counter {
            return Err(Refusal::BadCounter);
        }
        if !self.q.open_flag {
            return Err(Refusal::NoRound);
        }
        if ts != self.q.ts {
            return Err(Refusal::OtherRound);
        }
        Ok(())
    }

    #[tactic(auto, unfolding(words::specs::Said::first))]
    fn accept_poll(self) -> Result<(), Refusal>
        ensures { number_in result ≡ first (poll_refusals self.s self.q self.reading) }
    {
        self.accept_begin()?;
        if !self.q.open_flag {
            return Err(Refusal::NoRound);
        }
        Ok(())
    }

    // Kept: a match of its own beside `perform`'s, no plainer as one, because rule 2.2 puts every refusal before any event.
    fn accept(self, event: StandbyEvent) -> Result<(), Refusal>
        ensures { number_in result ≡ first (refusals_of self.s self.q self.reading event) }
    {
        match event {
            StandbyEvent::Begin => self.accept_begin(),
            StandbyEvent::Ack(observer, ts, counter, _) => self.accept_ack(observer, ts, counter),
            StandbyEvent::Poll => self.accept_poll(),
        }
    }

    fn is_late(self) -> bool
        ensures { result ≡ is_late (window self.s) self.q self.reading }
    {
        settings::round_window(self.s) < settings::less(self.reading, self.q.ts)
    }

    #[tactic(auto, unfolding(messages::specs::Answers::words_of))]
    fn late(self) -> Stepped<Standby>
        ensures { outcome result ≡ (says "late" leaving closed self.reading) }
    {
        saying(Word::Late, closed_round(self.reading))
    }

    // The round goes on: only the last reading changes.
    #[tactic(auto, unfolding(messages::specs::Answers::words_of))]
    fn still_waiting(self) -> Stepped<Standby>
        ensures { outcome result ≡ (says "waiting" leaving at_reading self.reading self.q) }
    {
        let rec = Standby {
            last_reading: self.reading,
            ..self.q
        };
        saying(Word::Waiting, rec)
    }

    // A first ack has been put into `places`: the round closes at a quorum, or waits.
    #[tactic(auto, unfolding(standby_rules::specs::Standby::after_keeping, messages::specs::Answers::words_of))]
    fn after_keeping(self, places: [Place; MOST_OBSERVERS]) -> Stepped<Standby>
        ensures { outcome result ≡ after_keeping self.s self.q self.reading places }
    {
        let marks = kept_marks(places);
        if quorums::contains_query_quorum(self.s, marks) {
            return saying(judge(places), closed_round(self.reading));
        }
        let rec = Standby {
            last_reading: self.reading,
            places,
            ..self.q
        };
        saying(Word::Waiting, rec)
    }

    // Opens a round at this reading, forgets any other, and sends the CHECK: rule 5.4.
    #[tactic(auto, unfolding(standby_rules::specs::Standby::begin_event, messages::specs::Answers::said, messages::specs::Answers::given))]
    fn begin(self) -> Stepped<Standby>
        ensures { outcome result ≡ begin_event self.reading }
    {
        Stepped {
            answer: Ok(Answer::Send(Message::Check(self.reading))),
            rec: Standby {
                open_flag: true,
                ts: self.reading,
                ..closed_round(self.reading)
            },
        }
    }

    // An observer's ack: late, or waiting, or with the quorum a verdict.
    #[tactic(auto, unfolding(standby_rules::specs::Standby::ack_event))]
    fn ack(self, observer: u64, counter: u64, status: Status) -> Stepped<Standby>
        requires { observer < most_observers }
        ensures { outcome result ≡ ack_event (window self.s) self.s self.q self.reading observer counter status }
    {
        if self.is_late() {
            return self.late();
        }
        let x = observer as usize;
        if self.q.places[x].kept {
            return self.still_waiting();
        }
        let mut places = self.q.places;
        places[x] = Place {
            kept: true,
            counter,
            status,
        };
        self.after_keeping(places)
    }

    // Whether the round is late or goes on.
    #[tactic(auto, unfolding(standby_rules::specs::Standby::poll_event))]
    fn poll(self) -> Stepped<Standby>
        ensures { outcome result ≡ poll_event (window self.s) self.q self.reading }
    {
        if self.is_late() {
            self.late()
        } else {
            self.still_waiting()
        }
    }

    // What an accepted event does.
    // Kept: a match of its own beside `accept`'s: no plainer as one, because rule 2.2 puts every refusal before any event.
    fn perform(self, event: StandbyEvent) -> Stepped<Standby>
        requires { Ready event }
        ensures { outcome result ≡ event_within (window self.s) self.s self.q self.reading event }
    {
        match event {
            StandbyEvent::Begin => self.begin(),
            StandbyEvent::Ack(observer, _, counter, status) => self.ack(observer, counter, status),
            StandbyEvent::Poll => self.poll(),
        }
    }
}

// Refusals first (rule 2.2), then the event.
pub fn step(s: Settings, q: Standby, reading: u64, event: StandbyEvent) -> Stepped<Standby>
    ensures { outcome result ≡ step_of s q reading event }
{
    let turn = Turn { s, q, reading };
    match turn.accept(event) {
        Ok(()) => turn.perform(event),
        Err(refusal) => Stepped {
            answer: Err(refusal),
            rec: q,
        },
    }
}
