// Sets of observers: whether one contains a survival quorum, or a query quorum; that a set with the one and a set with the other
// share an observer, and that a set keeps its quorums as it grows. Serves rule 1.9.
#![tactic(auto)]

ghost use Rattle.std.specs.Prelude.{◌≡◌};
ghost use Rattle.settings.specs.Settings.{n};
ghost use Rattle.quorums.specs.Quorums.{survives, closes, QuorumsMeet, QuorumsGrow};
ghost use Rattle.quorums.specs.Parts.{counted_in_turn};

use settings::{MOST_OBSERVERS, Settings, less};

// How many of the n observers are in the set. One mark for each observer, by number; marks from n on count nothing.
// Kept: a fold, no plainer by `filter` and `count`: they test mark by mark, and a call at which 64 leases end takes twice the time
// and more. The sum never wraps, since there are 16 marks.
fn count_members(s: Settings, set: [bool; MOST_OBSERVERS]) -> u64
    ensures { result ≡ counted_in_turn (n s) set }
{
    set.iter().enumerate().fold(0, |count: u64, (x, mark)| {
        count.wrapping_add(u64::from(((x as u64) < s.observers) & *mark))
    })
}

// Does the set contain a survival quorum?
pub fn contains_survival_quorum(s: Settings, set: [bool; MOST_OBSERVERS]) -> bool
    ensures { result ≡ survives s set }
{
    s.survival <= count_members(s, set)
}

// Does the set contain a query quorum?
pub fn contains_query_quorum(s: Settings, set: [bool; MOST_OBSERVERS]) -> bool
    ensures { result ≡ closes s set }
{
    less(s.observers, s.survival) < count_members(s, set)
}

// A set with a survival quorum and a set with a query quorum share an observer.
pub fn quorums_meet()
    ensures { QuorumsMeet }
{}

// A set keeps its quorums when observers are added.
pub fn quorums_grow()
    ensures { QuorumsGrow }
{}
