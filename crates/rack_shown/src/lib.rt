// Single runs of a rack, shown by computation: those that meet the premises of demand 3, at the margin, and those that refute the
// shortcuts that look harmless. Theorems; no code that runs.
#![tactic(auto)]

ghost use Rattle.rack_shown.specs.Shown.{DeadToldAtTheWindow, AliveToldWhileDriving, BoundIsMet, BoundIsTight, JustInTime, PremisesNeeded};
ghost use Rattle.rack_shown.specs.Freedoms.{EverythingHappens};
ghost use Rattle.rack_shown.specs.Needed.{TestsAreNeeded, DetectionNeedsThem};
ghost use Rattle.rack_shown.specs.Shortcuts.{WindowPlusOneUnsafe, TwoGrainsUnsafe, NoRoundingUnsafe, GrantFirstUnsafe, MajorityUnsafe, LatestFirstUnsafe};

// ---- The claims are not empty: single runs, at the margin.

// A run in which a recorder drives under several leases, loses them, and dead is told at the last reading of the window.
pub fn dead_is_told_at_the_window()
    ensures { DeadToldAtTheWindow }
{}

// A run in which the recorder drives on while a query says alive.
pub fn alive_is_told_while_driving()
    ensures { AliveToldWhileDriving }
{}

// A run with all that detection supposes, its query begun at the bound itself.
pub fn detection_bound_is_met()
    ensures { BoundIsMet }
{}

// One tick before the bound a query may say alive.
pub fn detection_bound_is_tight()
    ensures { BoundIsTight }
{}

// Without slack b, a round whose last reply comes at the timeliness bound ends; one tick later it may be late.
pub fn one_exchange_just_in_time()
    ensures { JustInTime }
{}

// Without registration, with a late arrival, with a new round begun or the standby restarted meanwhile, the second half fails.
pub fn premises_are_needed()
    ensures { PremisesNeeded }
{}

// Everything that a run allows happens in one run, and dead is told in it.
pub fn everything_happens()
    ensures { EverythingHappens }
{}

// ---- Nothing that is supposed is idle

// Events that pass all tests of a run but one, and in which dead does not mean dead or one exchange does not end a round.
pub fn tests_are_needed()
    ensures { TestsAreNeeded }
{}

// With a request sent after f, or one that arrives after D, a query begun at the bound may say alive.
pub fn detection_needs_its_premises()
    ensures { DetectionNeedsThem }
{}

// ---- Shortcuts that look harmless are refuted, each by a run.

// The window cannot be wider by a tick.
pub fn window_w_plus_one_is_unsafe()
    ensures { WindowPlusOneUnsafe }
{}

// Two grains in place of the window's three.
pub fn shortcut_two_grains_is_unsafe()
    ensures { TwoGrainsUnsafe }
{}

// The window O - P.
pub fn shortcut_no_rounding_is_unsafe()
    ensures { NoRoundingUnsafe }
{}

// A grant counted before leases are ended.
pub fn shortcut_grant_first_is_unsafe()
    ensures { GrantFirstUnsafe }
{}

// A verdict by majority of statuses.
pub fn shortcut_majority_is_unsafe()
    ensures { MajorityUnsafe }
{}

// Latest stored before deadline.
pub fn shortcut_latest_first_is_unsafe()
    ensures { LatestFirstUnsafe }
{}
