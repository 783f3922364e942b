// The recorder's steps for C firmware, over the 680 bytes of a record, which `record_bytes` reads and writes. Serves rules 8.
// What a call returns and leaves stands in `firmware_rules`; the header for C is include/recorder.h.
#![tactic(auto)]

ghost use Rattle.std.specs.Prelude.{◌≡◌};
ghost use Rattle.settings.specs.Settings.{settings_of};
ghost use Rattle.messages.specs.Answers.{said, speaks, words_of, is_refusal};
ghost use Rattle.recorder_rules.specs.declared.RecorderEvent.TheVariants.{Tick, Grant, Drive};
ghost use Rattle.firmware_rules.specs.Calls.{code_of, called};

use messages::{Answer, Word, is_refusal};
use record_bytes::{RECORD_BYTES, put_record, record_in};
use recorder::step;
use recorder_rules::RecorderEvent;
use refusals::Refusal;
use settings::{Settings, accept, settings_of};

// The number that C gets for a word, of which the recorder says three.
// Kept: the C interface has numbers (rule 8.3).
#[tactic(auto, unfolding(firmware_rules::specs::Calls::code_of, firmware_rules::specs::Calls::code_of_given, firmware_rules::specs::Calls::word_in, messages::specs::Answers::words_of, fields::specs::Places::is_exactly, fields::specs::Places::begins, fields::specs::Places::agree))]
fn code_of_word(word: Word) -> u32
    ensures { result ≡ code_of (speaks (words_of word)) }
{
    match word {
        Word::Unregistered => 100,
        Word::Running => 101,
        _ => 102,
    }
}

// The number that C gets for an answer.
// Kept: the C interface has numbers (rule 8.3).
#[tactic(auto, unfolding(firmware_rules::specs::Calls::code_of, firmware_rules::specs::Calls::code_of_given, messages::specs::Answers::said, messages::specs::Answers::given))]
fn code_of(answer: Result<Answer, Refusal>) -> u32
    ensures { result ≡ code_of (said answer) }
{
    match answer {
        Ok(Answer::Send(_)) => 103,
        Ok(Answer::Say(word)) => code_of_word(word),
        Err(refusal) => u32::from(refusal),
    }
}

// Is the step refused?
#[tactic(auto, unfolding(messages::specs::Answers::said, messages::specs::Answers::said_with))]
fn is_refused(answer: Result<Answer, Refusal>) -> bool
    ensures { result ≡ is_refusal (said answer) }
{
    is_refusal(answer.map_err(u32::from))
}

// The step on the record that the buffer holds: a refused one writes no byte, any other its whole record (rule 8.4). A call
// judges the settings once: here before the size of a buffer that holds no record (rule 8.2), otherwise in the step.
fn perform(
    s: Settings,
    reading: u64,
    event: RecorderEvent,
    buffer: &mut [u8],
) -> Result<Answer, Refusal>
    ensures { (code_of (said result) ≡ (called s buffer.old reading event).code) × (buffer.new ≡ (called s buffer.old reading event).bytes) }
{
    if buffer.len() != RECORD_BYTES {
        accept(s)?;
        return Err(Refusal::WrongRoom);
    }
    let rec = record_in(&buffer[..]);
    let done = step(s, rec, reading, event);
    let answer = done.answer;
    if is_refused(answer) {
        return answer;
    }
    put_record(&mut buffer[..], done.rec);
    answer
}

// Kept: the C interface has numbers (rule 8.3).
fn call(s: Settings, reading: u64, event: RecorderEvent, buffer: &mut [u8]) -> u32
    ensures { (result ≡ (called s buffer.old reading event).code) × (buffer.new ≡ (called s buffer.old reading event).bytes) }
{
    code_of(perform(s, reading, event, &mut buffer[..]))
}

// Kept: the C interface.
#[unsafe(no_mangle)]
pub extern "C" fn recorder_tick(settings: &[u64; 7], reading: u64, buffer: &mut [u8]) -> u32
    ensures { (result ≡ (called (settings_of settings.now) buffer.old reading Tick).code) × (buffer.new ≡ (called (settings_of settings.now) buffer.old reading Tick).bytes) }
{
    let s = settings_of(*settings);
    call(s, reading, RecorderEvent::Tick, &mut buffer[..])
}

// Kept: the C interface.
#[unsafe(no_mangle)]
pub extern "C" fn recorder_grant(
    settings: &[u64; 7],
    reading: u64,
    observer: u64,
    number: u64,
    buffer: &mut [u8],
) -> u32
    ensures { (result ≡ (called (settings_of settings.now) buffer.old reading (Grant observer number)).code) × (buffer.new ≡ (called (settings_of settings.now) buffer.old reading (Grant observer number)).bytes) }
{
    let s = settings_of(*settings);
    call(
        s,
        reading,
        RecorderEvent::Grant(observer, number),
        &mut buffer[..],
    )
}

// Kept: the C interface.
#[unsafe(no_mangle)]
pub extern "C" fn recorder_drive(settings: &[u64; 7], reading: u64, buffer: &mut [u8]) -> u32
    ensures { (result ≡ (called (settings_of settings.now) buffer.old reading Drive).code) × (buffer.new ≡ (called (settings_of settings.now) buffer.old reading Drive).bytes) }
{
    let s = settings_of(*settings);
    call(s, reading, RecorderEvent::Drive, &mut buffer[..])
}
