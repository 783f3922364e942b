// The messages that the parties exchange and the answers that their steps give. Serves rules 2 and 6.2.
#![tactic(auto)]

ghost use Rattle.std.specs.Prelude.{◌≡◌};
ghost use Rattle.messages.specs.Answers.{said_with, is_refusal, AnswersToldApart};
ghost use Rattle.messages.specs.Outcomes.{bad_reading};

use refusals::Refusal;

// Greatest counter, 2^40, and greatest reading or ts, 2^40 - 1.
pub const TOP_COUNTER: u64 = 1099511627776;

pub const TOP_READING: u64 = 1099511627775;

#[derive(Clone, Copy, PartialEq, Eq)]
pub enum Status {
    Alive,
    Dead,
}

#[derive(Clone, Copy)]
pub enum Message {
    // the counter
    LeaseRequest(u64),
    // the counter
    LeaseGrant(u64),
    // ts
    Check(u64),
    // ts, the counter, and the status
    CheckAck(u64, u64, Status),
}

// The words that a step can say.
#[derive(Clone, Copy)]
pub enum Word {
    // the recorder's
    Unregistered,
    Running,
    Stopped,
    // the observer's
    Silent,
    Cut,
    // the standby's; dead and alive carry m
    Waiting,
    Late,
    Unknown,
    Dead(u64),
    Alive(u64),
}

// What an accepted step answers: rule 2.5.
#[derive(Clone, Copy)]
pub enum Answer {
    Send(Message),
    Say(Word),
}

// What a step returns: its answer, or the refusal (rule 2.2), and the record that it leaves.
#[derive(Clone, Copy)]
pub struct Stepped<R> {
    pub answer: Result<Answer, Refusal>,
    pub rec: R,
}

// Is it a refusal, whatever its number?
// Kept: a number in the refusal's place, and a function of one line: it took any number, and SettingsSettled and its edit name it.
#[tactic(auto, unfolding(crate::specs::Answers::said_with, crate::specs::Answers::is_refusal, crate::specs::Answers::given))]
pub fn is_refusal(answer: Result<Answer, u32>) -> bool
    ensures { result ≡ is_refusal (said_with answer) }
{
    answer.is_err()
}

// Rule 2.4, which is refusal 4.
pub fn bad_reading(last: u64, reading: u64) -> bool
    ensures { result ≡ bad_reading last reading }
{
    (TOP_READING < reading) | (reading < last)
}

// What the answers say tells all of them apart.
pub fn answers_told_apart()
    ensures { AnswersToldApart }
{}
