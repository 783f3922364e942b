// Decimal numbers as bytes: read from the front of a slice, counted, and written into lent room. Serves rule 6.1.
#![tactic(auto)]

ghost use Rattle.std.specs.Prelude.{◌≡◌, ◌++◌, ◌+◌, ◌-◌, ◌*◌, ◌<◌, ◌≤◌, length, drop, get_or, Some, None, if◌then◌else◌};
ghost use Rattle.words.specs.Tests.{◌<?◌};
ghost use Rattle.fields.specs.Places.{put_at, next_place};
ghost use Rattle.decimals.specs.Decimals.{is_digit, digits, read_on, number_at};

// A number that was read: its value and how many bytes it takes.
#[derive(Clone, Copy)]
pub struct Number {
    pub value: u64,
    pub length: usize,
}

// No number where one should stand: the place of the first byte at which none could go on.
#[derive(Clone, Copy)]
pub struct NoNumber {
    pub place: usize,
}

// The digit that the byte is, if it is one.
fn digit_of(byte: u8) -> Option<u64>
    ensures { result ≡ (if is_digit byte then Some (byte - 48) else None) }
{
    if byte.is_ascii_digit() {
        Some(u64::from(byte - b'0'))
    } else {
        None
    }
}

// The digit at the front, if one stands there.
fn first_digit(s: &[u8]) -> Option<u64>
    ensures { result ≡ (if is_digit (get_or s.now 0 0) then Some (get_or s.now 0 0 - 48) else None) }
{
    digit_of(*s.first()?)
}

// `value` with one digit more, if that does not pass `greatest`.
fn with_digit(value: u64, digit: u64, greatest: u64) -> Option<u64>
    ensures { result ≡ (if greatest <? value * 10 + digit then None else Some (value * 10 + digit)) }
{
    let next = value.checked_mul(10)?.checked_add(digit)?;
    if greatest < next { None } else { Some(next) }
}

// Reads on behind the first byte, `first` having been read from it.
#[tactic(auto, using(crate::proofs::Reading::next_byte, crate::proofs::Reading::read_end))]
fn read_on(s: &[u8], greatest: u64, first: u64) -> Result<Number, NoNumber>
    requires { 0 < length s.now }
    ensures { result ≡ read_on greatest first 1 (drop 1 s.now) }
{
    let mut value = first;
    // Kept: tried, the proof did not close with `s.iter().enumerate().skip(1)`.
    for i in 1..s.len() {
        let Some(digit) = digit_of(s[i]) else {
            return Ok(Number { value, length: i });
        };
        if value == 0 {
            return Err(NoNumber { place: i });
        }
        value = with_digit(value, digit, greatest).ok_or(NoNumber { place: i })?;
    }
    Ok(Number {
        value,
        length: s.len(),
    })
}

// The number that the part begins with: no sign, no leading zero, at most `greatest`, and 0 only where it is `allowed`.
#[tactic(auto, using(crate::proofs::Reading::first_byte, crate::proofs::Reading::digit_within))]
pub fn read_number(s: &[u8], allowed: bool, greatest: u64) -> Result<Number, NoNumber>
    ensures { result ≡ number_at allowed greatest s.now }
{
    let first = first_digit(s).ok_or(NoNumber { place: 0 })?;
    if ((first == 0) & !allowed) | (greatest < first) {
        return Err(NoNumber { place: 0 });
    }
    read_on(s, greatest, first)
}

// How many digits `n` has.
#[tactic(auto, using(crate::proofs::Digits::count_one, crate::proofs::Digits::count_by_power))]
pub fn digit_count(n: u64) -> usize
    ensures { result ≡ length (digits n) }
{
    n.checked_ilog10().map_or(1, |power| power as usize + 1)
}

// Writes the digits of `n` at the front of `out`, by calls of itself, since the last digit is found first. What stands after
// them is not touched.
// Kept: a recursion: no plainer, because the digits of n are those of n / 10 and one more (docs/DECISIONS.md).
fn write_digits(out: &mut [u8], n: u64) -> usize
    requires { length (digits n) ≤ length out.old }
    ensures { (result ≡ length (digits n)) × (out.new ≡ digits n ++ drop (length (digits n)) out.old) }
{
    if n < 10 {
        out[0] = b'0' + n as u8;
        return 1;
    }
    let count = write_digits(&mut out[..], n / 10);
    // Kept: no plainer by `u8::try_from`, because its error could never come.
    out[count] = b'0' + (n % 10) as u8;
    count + 1
}

// Writes the digits of `n` from `at` on and gives the next place; without room for them all it writes nothing and gives `at`.
#[tactic(auto, using(fields::proofs::Rooms::put_part, fields::proofs::Rooms::next_fits, fields::proofs::Rooms::put_not, fields::proofs::Rooms::next_not))]
pub fn put_number(out: &mut [u8], at: usize, n: u64) -> usize
    ensures { (result ≡ next_place out.old at (digits n)) × (out.new ≡ put_at out.old at (digits n)) }
{
    let count = digit_count(n);
    if out.len() < at {
        return at;
    }
    if out.len() - at < count {
        return at;
    }
    write_digits(&mut out[at..], n);
    at + count
}
