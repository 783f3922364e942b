// Demand 3 of the customer: dead means dead. Theorems about runs of the very step definitions that the contracts of recorder,
// observer and standby cite; no code that runs. specs/Claims.antt states them phrase by phrase. `rack_shown` has single runs.
#![tactic(auto)]

ghost use Rattle.rack.specs.Freedoms.{AnythingMayHappen};
ghost use Rattle.rack.specs.Found.{FoundDead, SomeRunTellsDead};
ghost use Rattle.rack.specs.Claims.{RecorderIsNeverRefused, SentMessagesHaveForm, DeadMeansDead, DeadIsDetected, OneExchangeEnds};

// Steps at any time, loss of power and every arrival of a message that was sent are possible behind every run.
pub fn anything_may_happen()
    ensures { AnythingMayHappen }
{}

// In a run no event of the recorder is refused; with every window up to W.
pub fn recorder_is_never_refused()
    ensures { RecorderIsNeverRefused }
{}

// In a run every message that is sent has its form, so that its line can be written.
pub fn sent_messages_have_form()
    ensures { SentMessagesHaveForm }
{}

// Once the standby is told dead, every later step of the recorder is answered stopped; with every window up to W.
pub fn dead_means_dead()
    ensures { DeadMeansDead }
{}

// A recorder that had registered is called dead by every query that is begun late enough after its last request and ends.
pub fn dead_is_detected()
    ensures { DeadIsDetected }
{}

// A round whose query quorum answers within the timeliness bound ends in that round.
pub fn one_exchange_ends()
    ensures { OneExchangeEnds }
{}

// A query begun late enough after the recorder's last request, whose replies come in time, is told dead in one exchange.
pub fn found_dead()
    ensures { FoundDead }
{}

// Under all accepted settings there is a run with such a query in it.
pub fn some_run_tells_dead()
    ensures { SomeRunTellsDead }
{}
