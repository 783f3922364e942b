// The observer: a small box that grants leases and says what it has seen. Serves rules 4. A step first makes its plan, which
// is all that the rules ask of it; then it does the plan, store by store. The plan is made here for both forms of the step: the
// one below takes the record and returns it, the one of `observer_lent` alters it in place.
#![tactic(auto)]

ghost use Rattle.std.specs.Prelude.{◌≡◌, take};
ghost use Rattle.words.specs.Said.{first};
ghost use Rattle.settings.specs.Parts.{InRange};
ghost use Rattle.refusals.specs.Refusals.{number_in};
ghost use Rattle.messages.specs.Answers.{given};
ghost use Rattle.messages.specs.Outcomes.{outcome};
ghost use Rattle.observer_rules.specs.Observer.{at_reading, has_form, shared_refusals, request_refusals, cut_refusals, check_refusals, refusals_of, store_all, status_at, answer_of, reading_after, step_of, restart_of};
ghost use Rattle.observer.specs.Plan.{how_many, new_latest, planned, plan_of};
ghost use Rattle.observer.specs.Parts.{in_order};

use messages::{Answer, Message, Status, Stepped, Word, bad_reading};
use observer_rules::{Observer, ObserverEvent};
use refusals::Refusal;
use settings::Settings;

// What an accepted step is to do.
#[derive(Clone, Copy)]
pub struct Plan {
    pub answer: Answer,
    // how many of the two stores are done, and what they store: the deadline, then latest
    pub stores: u64,
    pub deadline: u64,
    pub latest: u64,
    pub last_reading: u64,
}

// ---- Parts of a step

// Does the record have the form (rule 4.2)? The settings are in range, so the greatest deadline does not wrap.
#[tactic(auto, unfolding(observer_rules::specs::Observer::has_form, observer_rules::specs::Observer::form))]
fn has_form(s: Settings, o: Observer) -> bool
    requires { InRange s }
    ensures { result ≡ has_form s o }
{
    let lease = s.observer_lease;
    let counter_fits = o.latest <= messages::TOP_COUNTER;
    let deadline_fits = (lease <= o.deadline) & (o.deadline <= messages::TOP_READING + lease);
    counter_fits
        & ((o.deadline == 0) | deadline_fits)
        & ((o.deadline != 0) | (o.latest == 0))
        & (o.last_reading <= messages::TOP_READING)
}

// Of a request that would be silent there is nothing to store, and so nothing to cut (rules 4.4, 4.6).
// Kept: a match: no plainer, because each kind of event has values of its own, and the count is of those.
#[tactic(auto, unfolding(crate::specs::Plan::how_many))]
fn how_many(o: Observer, event: ObserverEvent) -> u64
    ensures { result ≡ how_many o event }
{
    match event {
        ObserverEvent::Request(counter) if o.latest < counter => 2,
        ObserverEvent::Cut(counter, stores) if o.latest < counter => stores,
        _ => 0,
    }
}

// Kept: a match: no plainer, because the counter is a value of two of the kinds, and a check has none.
#[tactic(auto, unfolding(crate::specs::Plan::new_latest))]
fn new_latest(event: ObserverEvent) -> u64
    ensures { result ≡ new_latest event }
{
    match event {
        ObserverEvent::Request(counter) | ObserverEvent::Cut(counter, _) => counter,
        ObserverEvent::Check(_) => 0,
    }
}

// A box that was cut has lost its memory (rule 4.6).
// Kept: a match: no plainer, because the rule is on the kind of the event; all of its kinds stand here, as in the definition.
#[tactic(auto, unfolding(observer_rules::specs::Observer::reading_after))]
fn reading_after(reading: u64, event: ObserverEvent) -> u64
    ensures { result ≡ reading_after reading event }
{
    match event {
        ObserverEvent::Request(_) | ObserverEvent::Check(_) => reading,
        ObserverEvent::Cut(_, _) => 0,
    }
}

// What every step is handed besides its event: the settings, the record, the observer's own number, and the reading.
#[derive(Clone, Copy)]
struct Turn {
    s: Settings,
    o: Observer,
    x: u64,
    reading: u64,
}

impl Turn {
    // The refusals that all steps share, the lowest first; 4 has its condition handed in.
    #[tactic(auto, using(crate::proofs::Tables::shared_refused, crate::proofs::Tables::shared_decide, settings::proofs::Laws::accepted_in_range), unfolding(words::specs::Said::first))]
    fn accept_shared(self, bad: bool) -> Result<(), Refusal>
        ensures { number_in result ≡ first (shared_refusals self.s self.o self.x bad) }
    {
        settings::accept(self.s)?;
        if !has_form(self.s, self.o) {
            return Err(Refusal::NoForm);
        }
        if bad {
            return Err(Refusal::BadReading);
        }
        if self.s.observers <= self.x {
            return Err(Refusal::NoSuchObserver);
        }
        Ok(())
    }

    // 6 comes behind them.
    #[tactic(auto, using(crate::proofs::Tables::request_refused, crate::proofs::Tables::request_decides))]
    fn accept_request(self, counter: u64) -> Result<(), Refusal>
        ensures { number_in result ≡ first (request_refusals self.s self.o self.x self.reading counter) }
    {
        self.accept_shared(bad_reading(self.o.last_reading, self.reading))?;
        if (counter == 0) | (messages::TOP_COUNTER < counter) {
            return Err(Refusal::BadCounter);
        }
        Ok(())
    }

    // A cut is a request that is cut, after two stores at most.
    #[tactic(auto, using(crate::proofs::Tables::cut_refused), unfolding(words::specs::Said::first))]
    fn accept_cut(self, counter: u64, stores: u64) -> Result<(), Refusal>
        ensures { number_in result ≡ first (cut_refusals self.s self.o self.x self.reading counter stores) }
    {
        self.accept_request(counter)?;
        if 2 < stores {
            return Err(Refusal::BadLine);
        }
        Ok(())
    }

    // Of a check, 4 covers the ts too.
    fn accept_check(self, ts: u64) -> Result<(), Refusal>
        ensures { number_in result ≡ first (check_refusals self.s self.o self.x self.reading ts) }
    {
        let bad = bad_reading(self.o.last_reading, self.reading) | (messages::TOP_READING < ts);
        self.accept_shared(bad)
    }

    // Kept: a match, no plainer: each arm has arguments of its own, and rule 2.2 puts every refusal before any event.
    fn accept(self, event: ObserverEvent) -> Result<(), Refusal>
        ensures { number_in result ≡ first (refusals_of self.s self.o self.x self.reading event) }
    {
        match event {
            ObserverEvent::Request(counter) => self.accept_request(counter),
            ObserverEvent::Cut(counter, stores) => self.accept_cut(counter, stores),
            ObserverEvent::Check(ts) => self.accept_check(ts),
        }
    }

    // Dead from the deadline on (rule 4.7).
    #[tactic(auto, unfolding(observer_rules::specs::Observer::status_at))]
    fn status(self) -> Status
        ensures { result ≡ status_at self.o self.reading }
    {
        if self.reading < self.o.deadline {
            Status::Alive
        } else {
            Status::Dead
        }
    }

    // A request is granted, or met with silence; a cut sends nothing; a check is told what the observer has seen.
    // Kept: a match: no plainer, because it says an answer a kind, of the values that the kind has, and calls no function by a kind.
    #[tactic(auto, unfolding(observer_rules::specs::Observer::answer_of, messages::specs::Answers::given, messages::specs::Answers::words_of))]
    fn answer_of(self, event: ObserverEvent) -> Answer
        ensures { given result ≡ answer_of self.o self.reading event }
    {
        match event {
            ObserverEvent::Request(counter) if self.o.latest < counter => {
                Answer::Send(Message::LeaseGrant(counter))
            }
            ObserverEvent::Request(_) => Answer::Say(Word::Silent),
            ObserverEvent::Cut(_, _) => Answer::Say(Word::Cut),
            ObserverEvent::Check(ts) => {
                Answer::Send(Message::CheckAck(ts, self.o.latest, self.status()))
            }
        }
    }

    // The plan of an event. Where it is not refused, settings and reading are in range, so the new deadline does not wrap.
    #[tactic(auto, using(refusals::proofs::Apart::some_number), unfolding(crate::specs::Plan::plan_of))]
    fn plan(self, event: ObserverEvent) -> Result<Plan, Refusal>
        ensures { planned result ≡ plan_of self.s self.o self.x self.reading event }
    {
        self.accept(event)?;
        Ok(Plan {
            answer: self.answer_of(event),
            stores: how_many(self.o, event),
            deadline: self.reading + self.s.observer_lease,
            latest: new_latest(event),
            last_reading: reading_after(self.reading, event),
        })
    }
}

// The plan of a step, for either form of it.
pub fn plan_of(
    s: Settings,
    o: Observer,
    x: u64,
    reading: u64,
    event: ObserverEvent,
) -> Result<Plan, Refusal>
    ensures { planned result ≡ plan_of s o x reading event }
{
    Turn { s, o, x, reading }.plan(event)
}

// ---- Steps

// What a plan leaves of a record: the first stores, as many as it tells, the deadline and then latest; behind them the last
// reading. The cut falls between the two stores.
#[tactic(auto, using(crate::proofs::Stored::none_done, crate::proofs::Stored::one_done, crate::proofs::Stored::both_done), unfolding(observer_rules::specs::Observer::store))]
fn left_by(plan: Plan, o: Observer) -> Observer
    ensures { result ≡ at_reading plan.last_reading (store_all (take plan.stores (in_order plan.deadline plan.latest)) o) }
{
    let mut left = o;
    if 1 <= plan.stores {
        left.deadline = plan.deadline;
    }
    if 2 <= plan.stores {
        left.latest = plan.latest;
    }
    left.last_reading = plan.last_reading;
    left
}

// The plan is made and done. A refusal leaves the record as it came (rule 2.2).
pub fn step(
    s: Settings,
    o: Observer,
    x: u64,
    reading: u64,
    event: ObserverEvent,
) -> Stepped<Observer>
    ensures { outcome result ≡ step_of s o x reading event }
{
    match plan_of(s, o, x, reading, event) {
        Ok(plan) => Stepped {
            answer: Ok(plan.answer),
            rec: left_by(plan, o),
        },
        Err(refusal) => Stepped {
            answer: Err(refusal),
            rec: o,
        },
    }
}

// A restart keeps what is stored and forgets the last reading (rule 4.8).
#[tactic(auto, unfolding(observer_rules::specs::Observer::restart_of))]
pub fn restart(o: Observer) -> Observer
    ensures { result ≡ restart_of o }
{
    Observer {
        last_reading: 0,
        ..o
    }
}
