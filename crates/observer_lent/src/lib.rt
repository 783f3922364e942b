// The observer's step over a record that is lent: it is altered in place, one field at a time. Serves rules 4.4 to 4.7, with
// rule 2.2 for a refusal. What is to be done is the plan of `observer`, the same that the step by value does; here every store
// is a write of its own into the lent record, so that a cut falls between two of them.
#![tactic(auto)]

ghost use Rattle.std.specs.Prelude.{◌≡◌, take};
ghost use Rattle.messages.specs.Answers.{said};
ghost use Rattle.messages.specs.Outcomes.{◌leaving◌, outcome};
ghost use Rattle.observer_rules.specs.Observer.{Store, store, store_all, at_reading, step_of};
ghost use Rattle.observer.specs.Parts.{in_order};

use messages::{Answer, Stepped};
use observer_rules::{Observer, ObserverEvent};
use refusals::Refusal;
use settings::Settings;

// Kept: a function a field, by docs/DECISIONS.md, "The lent observer", and the clause of `store_first`: a cut falls between.
#[tactic(auto, unfolding(observer_rules::specs::Observer::store))]
fn store_deadline(o: &mut Observer, deadline: u64)
    ensures { o.new ≡ store (Store.deadline deadline) o.old }
{
    o.deadline = deadline;
}

#[tactic(auto, unfolding(observer_rules::specs::Observer::store))]
fn store_latest(o: &mut Observer, latest: u64)
    ensures { o.new ≡ store (Store.latest latest) o.old }
{
    o.latest = latest;
}

fn set_last_reading(o: &mut Observer, reading: u64)
    ensures { o.new ≡ at_reading reading o.old }
{
    o.last_reading = reading;
}

// The first stores, as many as are told: the deadline, then latest. Whatever the count, the record is what the first so many
// leave: a cut returns between the two.
#[tactic(auto, using(observer::proofs::Stored::none_done, observer::proofs::Stored::one_done, observer::proofs::Stored::both_done))]
fn store_first(o: &mut Observer, count: u64, deadline: u64, latest: u64)
    ensures { o.new ≡ store_all (take count (in_order deadline latest)) o.old }
{
    if count == 0 {
        return;
    }
    store_deadline(&mut *o, deadline);
    if count == 1 {
        return;
    }
    store_latest(&mut *o, latest);
}

// The plan is made and done: the stores, then the last reading. A refusal writes nothing.
pub fn step_lent(
    o: &mut Observer,
    s: Settings,
    x: u64,
    reading: u64,
    event: ObserverEvent,
) -> Result<Answer, Refusal>
    ensures { (said result leaving o.new) ≡ step_of s o.old x reading event }
{
    let plan = observer::plan_of(s, *o, x, reading, event)?;
    store_first(&mut *o, plan.stores, plan.deadline, plan.latest);
    set_last_reading(&mut *o, plan.last_reading);
    Ok(plan.answer)
}

// For a caller that has the record by value: it is lent to the step, and comes back beside the answer.
pub fn lend_to_step(
    s: Settings,
    o: Observer,
    x: u64,
    reading: u64,
    event: ObserverEvent,
) -> Stepped<Observer>
    ensures { outcome result ≡ step_of s o x reading event }
{
    let mut rec = o;
    let answer = step_lent(&mut rec, s, x, reading, event);
    Stepped { answer, rec }
}
