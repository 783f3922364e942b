// A recorder's record and its 680 bytes, 85 words of 8 bytes, the low byte first: read from a buffer and written into it.
// Serves rules 8.1. Which bytes are which record stands in `firmware_rules`.
#![tactic(auto)]

ghost use Rattle.std.specs.Prelude.{◌≡◌, ◌+◌, ◌*◌, ◌≤◌, length};
ghost use Rattle.fields.specs.Places.{put_at};
ghost use Rattle.firmware_rules.specs.Bytes.{bytes_in, words_at, bytes_of, decoded, encoded};
ghost use Rattle.record_bytes.specs.Held.{record_in, with_record};

use recorder_rules::{Recorder, fresh_recorder};

// The bytes of a record, of which the send readings begin at 40 and the grants behind them.
pub const RECORD_BYTES: usize = 680;

const SENDS_AT: usize = 40;

const GRANTS_AT: usize = 552;

// As many words as are asked for, from the front of a part.
// Kept: `chunks[i]`: tried by `from_fn` (it says nothing of what its closure captures for any N) and by `zip`; the proof did not close.
fn words_at<const N: usize>(b: &[u8]) -> [u64; N]
    requires { 8 * N ≤ length b.now }
    ensures { result ≡ words_at N b.now }
{
    let (chunks, _) = b.as_chunks::<8>();
    let mut words = [0u64; N];
    for (i, word) in words.iter_mut().enumerate() {
        *word = u64::from_le_bytes(chunks[i]);
    }
    words
}

fn decode(b: &[u8; RECORD_BYTES]) -> Recorder
    ensures { result ≡ decoded b.now }
{
    // A pattern does not say how many words it takes.
    let [stopped, counter, last_send, last_reading, open_leases] = words_at::<5>(&b[..]);
    let sends = words_at(&b[SENDS_AT..]);
    let grants = words_at(&b[GRANTS_AT..]);
    Recorder {
        stopped,
        counter,
        last_send,
        last_reading,
        open_leases,
        sends,
        grants,
    }
}

// Puts a word at `at`.
fn put_word(b: &mut [u8], at: usize, word: u64)
    requires { at + 8 ≤ length b.old }
    ensures { b.new ≡ put_at b.old at (bytes_in 8 word) }
{
    b[at..at + 8].copy_from_slice(&word.to_le_bytes());
}

// Puts words behind one another from `at` on.
// Kept: `at + 8 * i`: tried, the proof did not close: the library's `as_chunks_mut` says nothing of what its slice ends as.
#[tactic(auto, using(fields::proofs::Rooms::put_nothing, firmware_rules::proofs::Words::puts_next), unfolding(firmware_rules::specs::Bytes::bytes_of))]
fn put_words(b: &mut [u8], at: usize, words: &[u64])
    requires { at + 8 * length words.now ≤ length b.old }
    ensures { b.new ≡ put_at b.old at (bytes_of words.now) }
{
    for (i, word) in words.iter().enumerate() {
        put_word(b, at + 8 * i, *word);
    }
}

#[tactic(auto, using(firmware_rules::proofs::Words::parts_put), unfolding(firmware_rules::specs::Bytes::encoded))]
fn encode(b: &mut [u8; RECORD_BYTES], rec: &Recorder)
    ensures { b.new ≡ encoded rec.now }
{
    put_words(
        b,
        0,
        &[
            rec.stopped,
            rec.counter,
            rec.last_send,
            rec.last_reading,
            rec.open_leases,
        ],
    );
    put_words(b, SENDS_AT, &rec.sends);
    put_words(b, GRANTS_AT, &rec.grants);
}

// The record that a buffer holds. One of another length holds none: a fresh record is given.
#[tactic(auto, unfolding(crate::specs::Held::record_in))]
pub fn record_in(b: &[u8]) -> Recorder
    ensures { result ≡ record_in b.now }
{
    let Some(whole) = b.as_array() else {
        return fresh_recorder();
    };
    decode(whole)
}

// Puts the record into a buffer. One of another length has no room for it and is left alone.
#[tactic(auto, unfolding(crate::specs::Held::with_record))]
pub fn put_record(b: &mut [u8], rec: Recorder)
    ensures { b.new ≡ with_record b.old rec }
{
    if let Some(whole) = b.as_mut_array() {
        encode(whole, &rec);
    }
}
