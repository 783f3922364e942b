// Words and bytes at a place of a slice: the part that begins there, the word at its front, and bytes written into lent room.
// Serves rule 6.4; the lines of step files and of answers have their words in the same way.
#![tactic(auto)]

ghost use Rattle.std.specs.Prelude.{◌≡◌, drop, option_copied};
ghost use Rattle.fields.specs.Places.{agree, begins, behind, is_exactly, put_at, next_place};

// Writes the bytes from `at` on and gives the next place; without room for them all it writes nothing and gives `at`.
#[tactic(auto, using(crate::proofs::Rooms::put_middle, crate::proofs::Rooms::put_again, crate::proofs::Rooms::next_fits, crate::proofs::Rooms::put_not, crate::proofs::Rooms::next_not))]
pub fn put_bytes(out: &mut [u8], at: usize, bytes: &[u8]) -> usize
    ensures { (result ≡ next_place out.old at bytes.now) × (out.new ≡ put_at out.old at bytes.now) }
{
    if out.len() < at {
        return at;
    }
    if out.len() - at < bytes.len() {
        return at;
    }
    let next = at + bytes.len();
    out[at..next].copy_from_slice(bytes);
    next
}

// How many bytes `s` and `word` have in common at their fronts. The word stands there if it is all of its bytes.
// Kept: public, docs/PROMISES.md names it and `FieldsSettled`, a theorem, has it; as a chain of `zip`, `take_while` and `count`: tried, the proof did not close.
pub fn agreement(s: &[u8], word: &[u8]) -> usize
    ensures { result ≡ agree s.now word.now }
{
    for (i, byte) in s.iter().enumerate() {
        if word.len() <= i {
            return i;
        }
        let letter = word[i];
        if *byte != letter {
            return i;
        }
    }
    s.len()
}

// Does the word stand at the front?
// Kept: not the library's `starts_with`: what reads lines goes by `agreement`, which docs/PROMISES.md names.
#[tactic(auto, unfolding(crate::specs::Places::begins))]
pub fn starts(s: &[u8], word: &[u8]) -> bool
    ensures { result ≡ begins word.now s.now }
{
    agreement(s, word) == word.len()
}

// Is it the word and nothing else?
// Kept: public, docs/PROMISES.md names it, `FieldsSettled`, a theorem, and the edit `exactly_with_more_behind` have it.
#[tactic(auto, using(crate::proofs::Rooms::exactly_lem))]
pub fn is_exactly(s: &[u8], word: &[u8]) -> bool
    ensures { result ≡ is_exactly word.now s.now }
{
    s == word
}

// The part of the slice that begins at `at`; nothing, where that is past the end.
pub fn part_from(s: &[u8], at: usize) -> &[u8]
    ensures { result.now ≡ drop at s.now }
{
    s.get(at..).unwrap_or(&[])
}

// What stands behind the word, if the word stands at the front.
#[tactic(auto, unfolding(crate::specs::Places::behind))]
pub fn after<'a>(s: &'a [u8], word: &[u8]) -> Option<&'a [u8]>
    ensures { option_copied result ≡ behind word.now s.now }
{
    if starts(s, word) {
        Some(part_from(s, word.len()))
    } else {
        None
    }
}
