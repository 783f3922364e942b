// The refusals, each under its name, and their numbers. Serves rules 2.1 and 2.2: what refuses answers `Err` of one of these.
#![tactic(auto)]

ghost use Rattle.refusals.specs.Refusals.{number_of, Numbered, ToldApart};

// In the order of the table of rules 2.
#[derive(Clone, Copy, Debug, PartialEq, Eq)]
pub enum Refusal {
    // 1: a setting out of its range
    OutOfRange,
    // 2: settings in range, with a slack below zero
    NegativeSlack,
    // 3: the record does not have its form
    NoForm,
    // 4: a reading, or the ts of a round, that is out of range or too low
    BadReading,
    // 5
    NoSuchObserver,
    // 6: the counter of a request or of an ack, or the number of a grant
    BadCounter,
    // 7
    NoRound,
    // 8: an ack of another round
    OtherRound,
    // 9: a line, a message or a cut that is not of its form
    BadLine,
    // 10: too short a room, a buffer of another length, too long an input
    WrongRoom,
}

impl From<Refusal> for u32 {
    ghost from_gives = { Numbered };

    fn from(refusal: Refusal) -> u32 {
        match refusal {
            Refusal::OutOfRange => 1,
            Refusal::NegativeSlack => 2,
            Refusal::NoForm => 3,
            Refusal::BadReading => 4,
            Refusal::NoSuchObserver => 5,
            Refusal::BadCounter => 6,
            Refusal::NoRound => 7,
            Refusal::OtherRound => 8,
            Refusal::BadLine => 9,
            Refusal::WrongRoom => 10,
        }
    }
}

// The numbers tell all refusals apart.
pub fn told_apart()
    ensures { ToldApart }
{}
