// What stands in a text: its parts, its numbers, bytes and floats as digits of sixteen.
ghost use Rattle.std.specs.Prelude.{◌≡◌, ℕ, ◌⊎◌, ◌≢◌, ◌∷◌, ◌++◌, ◌+◌, ◌-◌, ◌/◌, ◌<◌, ◌≤◌, [], length, take, drop, slice_index, EachIndex, IfOk, MatchOption, min};
ghost use Rattle.std.specs.Str.{IsCharBoundary};
ghost use Rattle.script.specs.Digits.{digits_from, sixteen, Spells};

use lines::lent;
use std::io;

// The most bytes that digits of sixteen spell in a case.
pub const SPELLED: usize = 4096;

// The place of the first such byte, or behind the end where there is none.
pub fn place_of(s: &[u8], x: u8) -> usize
    ensures within { result ≤ length s.now }
    ensures before { (k : ℕ) → k < result → slice_index s.now k ≢ x }
    ensures found { result < length s.now → slice_index s.now result ≡ x }
{
    s.iter().position(|y| *y == x).unwrap_or(s.len())
}

// The bytes from one place to another, or all where there are no such places.
pub fn between(s: &[u8], from: usize, to: usize) -> &[u8]
    ensures places { from ≤ to → to ≤ length s.now → result.now ≡ take (to - from) (drop from s.now) }
    ensures none { (from ≤ to → to ≤ length s.now → ⊥) → result.now ≡ s.now }
{
    s.get(from..to).unwrap_or(s)
}

// What stands behind the last such byte.
pub fn behind_last(s: &[u8], x: u8) -> Option<&[u8]>
    ensures { MatchOption result (EachIndex s.now (λ k. slice_index s.now k ≢ x)) (λ t. (k : ℕ) × (k < length s.now) × (slice_index s.now k ≡ x) × (t.now ≡ drop (k + 1) s.now) × ((i : ℕ) → k < i → i < length s.now → slice_index s.now i ≢ x)) }
{
    let at = s.iter().rposition(|y| *y == x)?;
    Some(&s[at + 1..])
}

// The text that bytes are.
pub fn text(s: &[u8]) -> io::Result<&str>
    ensures { IfOk result (λ t. t.now ≡ s.now) }
{
    str::from_utf8(s).map_err(|_| io::ErrorKind::InvalidData.into())
}

// What stands before the first such character and what behind it; all and nothing where there is none.
pub fn parted(text: &str, by: char) -> (&str, &str)
    ensures { by < 128 → (text.now ≡ result.0.now ++ by ∷ result.1.now) ⊎ ((result.0.now ≡ text.now) × (result.1.now ≡ [])) }
{
    text.split_once(by).unwrap_or((text, ""))
}

// The letter that a text begins with and what stands behind it; nothing and all where it begins with none.
pub fn lettered(text: &str) -> (&str, &str)
    ensures whole { result.0.now ++ result.1.now ≡ text.now }
    ensures letter { IsCharBoundary text.now 1 → result.0.now ≡ take 1 text.now }
    ensures none { (IsCharBoundary text.now 1 → ⊥) → result.0.now ≡ [] }
{
    text.split_at_checked(1).unwrap_or(("", text))
}

// The number of the digits that a text begins with. It keeps ten.
pub fn digits(s: &[u8]) -> u64
    ensures { result ≡ digits_from 0 s.now }
{
    let mut n = 0;
    for x in s {
        if !x.is_ascii_digit() {
            break;
        }
        n = n % 1_000_000_000 * 10 + u64::from(x - b'0');
    }
    n
}

// The number that a text begins with. One below 0 is counted from 2^64; < is the least that has a sign, > the greatest.
pub fn number(s: &[u8]) -> u64 {
    match s {
        [b'<', ..] => i64::MIN.cast_unsigned(),
        [b'>', ..] => i64::MAX.cast_unsigned(),
        [b'-', size @ ..] => digits(size).wrapping_neg(),
        _ => digits(s),
    }
}

// A digit of sixteen. What is none has some value too.
fn digit(x: u8) -> u8
    ensures bound { result < 16 }
    ensures value { result ≡ sixteen x }
{
    if x < b'a' { x % 16 } else { (x % 16 + 9) % 16 }
}

// The bytes that digits of sixteen spell, two for each, at the front of a buffer, as many as it has room for.
pub fn spelled<'a>(digits: &[u8], out: &'a mut [u8]) -> &'a mut [u8]
    ensures len { length result.now ≡ min (length digits.now / 2) (length out.old) }
    ensures bytes { Spells digits.now result.now }
{
    let bytes = lent(out, digits.len() / 2);
    for (i, x) in bytes.iter_mut().enumerate() {
        *x = digit(digits[2 * i]) * 16 + digit(digits[2 * i + 1]);
    }
    bytes
}

// The float whose pattern digits of sixteen spell, with noughts behind them where they are fewer than sixteen.
pub fn float(digits: &str) -> f64 {
    let mut pattern = [0u8; 8];
    spelled(digits.as_bytes(), &mut pattern);
    floats::of_bits(u64::from_be_bytes(pattern))
}
