// The seven settings: their ranges, the three slacks, the round window W, and the refusals 1 and 2. Serves rules 1.1 to 1.8.
#![tactic(auto)]

ghost use Rattle.std.specs.Prelude.{◌≡◌, ◌<◌, ◌^◌, ◌-◌, pos, ◌-ℤ◌};
ghost use Rattle.refusals.specs.Refusals.{number_in, said_in};
ghost use Rattle.settings.specs.Settings.{settings_of, rounding, each_in, in_range, window, refusal_of, negative};
ghost use Rattle.std.specs.List.{list_all};
ghost use Rattle.std.specs.Prelude.{zip, ◌&&◌, ◌||◌};
ghost use Rattle.words.specs.Tests.{◌≤?◌};
ghost use Rattle.settings.specs.Answers.{judged, slacks_of, three};
ghost use Rattle.settings.specs.Parts.{InRange};

use refusals::Refusal;

#[derive(Clone, Copy)]
pub struct Settings {
    // n
    pub observers: u64,
    // t
    pub survival: u64,
    // η
    pub interval: u64,
    // Δ
    pub timeliness: u64,
    // P
    pub recorder_lease: u64,
    // O
    pub observer_lease: u64,
    // G
    pub grain: u64,
}

#[derive(Clone, Copy)]
pub struct Range {
    pub least: u64,
    pub greatest: u64,
}

// The places of a record: one for each observer, and one for each lease that can be open at once.
pub const MOST_OBSERVERS: usize = 16;

pub const MOST_LEASES: usize = 64;

// One row a setting, in the order of rule 1.1.
const RANGES: [Range; 7] = [
    Range {
        least: 1,
        greatest: 16,
    },
    Range {
        least: 1,
        greatest: 16,
    },
    Range {
        least: 1,
        greatest: 1048576,
    },
    Range {
        least: 1,
        greatest: 1048576,
    },
    Range {
        least: 1,
        greatest: 16777216,
    },
    Range {
        least: 1,
        greatest: 16777216,
    },
    Range {
        least: 1,
        greatest: 1000,
    },
];

// The three slacks, of which each may be below zero.
#[derive(Clone, Copy)]
pub struct Slacks {
    pub a: i64,
    pub b: i64,
    pub c: i64,
}

// The settings' own answer, where they are not refused.
#[derive(Clone, Copy)]
pub struct Accepted {
    pub window: u64,
    pub slacks: Slacks,
}

// The settings from their seven numbers in a row.
// Kept: a function and no `From`, since SettingsSettled of `settled` has a row for it.
pub fn settings_of(values: [u64; 7]) -> Settings
    ensures { result ≡ settings_of values }
{
    Settings {
        observers: values[0],
        survival: values[1],
        interval: values[2],
        timeliness: values[3],
        recorder_lease: values[4],
        observer_lease: values[5],
        grain: values[6],
    }
}

// Does each value lie in its row?
#[tactic(auto, using(crate::proofs::Laws::each_zipped))]
fn each_in(rows: &[Range; 7], values: &[u64; 7]) -> bool
    ensures { result ≡ list_all (λ p. (p.0.least ≤? p.1) && (p.1 ≤? p.0.greatest)) (zip rows.now values.now) }
{
    rows.iter()
        .zip(values.iter())
        .all(|(row, x)| (row.least <= *x) & (*x <= row.greatest))
}

fn in_range(s: Settings) -> bool
    ensures { result ≡ in_range s }
{
    let values = [
        s.observers,
        s.survival,
        s.interval,
        s.timeliness,
        s.recorder_lease,
        s.observer_lease,
        s.grain,
    ];
    each_in(&RANGES, &values) & (s.survival <= s.observers)
}

// The difference of two numbers, exact on either side of zero.
fn difference(x: u64, y: u64) -> i64
    requires { (x < 2 ^ 62) × (y < 2 ^ 62) }
    ensures { result ≡ pos x -ℤ pos y }
{
    (x as i64) - (y as i64)
}

// x - y, or 0 where y is the greater: no record, whatever its numbers, makes a difference wrap.
pub fn less(x: u64, y: u64) -> u64
    ensures { result ≡ x - y }
{
    x.saturating_sub(y)
}

// By how much a reading can lie below its clock: G - 1.
fn rounding_of(s: Settings) -> u64
    ensures { result ≡ rounding s }
{
    less(s.grain, 1)
}

fn slacks_within(s: Settings) -> Slacks
    requires { InRange s }
    ensures { result ≡ three s }
{
    let rounding = rounding_of(s);
    Slacks {
        a: difference(
            s.recorder_lease,
            s.interval + s.timeliness + 2 * rounding + 1,
        ),
        b: difference(
            s.observer_lease,
            s.recorder_lease + s.timeliness + 4 * rounding,
        ),
        c: difference((MOST_LEASES as u64) * s.interval, s.recorder_lease),
    }
}

// The slacks of settings in range; others are refused.
pub fn slacks_of(s: Settings) -> Result<Slacks, Refusal>
    ensures { said_in result ≡ slacks_of s }
{
    if !in_range(s) {
        return Err(Refusal::OutOfRange);
    }
    Ok(slacks_within(s))
}

fn has_negative(slacks: Slacks) -> bool
    ensures { result ≡ (negative slacks.a || negative slacks.b || negative slacks.c) }
{
    (slacks.a < 0) | (slacks.b < 0) | (slacks.c < 0)
}

// Are the settings accepted? The refusal, if not.
pub fn accept(s: Settings) -> Result<(), Refusal>
    ensures { number_in result ≡ refusal_of s }
{
    let slacks = slacks_of(s)?;
    if has_negative(slacks) {
        return Err(Refusal::NegativeSlack);
    }
    Ok(())
}

// The round window W, for any seven numbers.
pub fn round_window(s: Settings) -> u64
    ensures { result ≡ window s }
{
    let rounding = rounding_of(s);
    let once = less(less(s.observer_lease, s.recorder_lease), rounding);
    less(less(once, rounding), rounding)
}

// The settings' answer: W and the slacks of accepted settings, or the refusal.
#[tactic(auto, using(crate::proofs::Laws::refused_settings, crate::proofs::Laws::without_slacks, crate::proofs::Laws::judged_accepted))]
pub fn judge(s: Settings) -> Result<Accepted, Refusal>
    ensures { said_in result ≡ judged s }
{
    accept(s)?;
    let slacks = slacks_of(s)?;
    Ok(Accepted {
        window: round_window(s),
        slacks,
    })
}
