#![tactic(auto)]

// Whole numbers as words of text: written in decimal, and read. `itoa` prints them, since std's `write!` promises its bytes
// only where it answers `Ok`, and not that it does.
ghost use Rattle.std.specs.Prelude.{◌≡◌, ◌++◌, ◌+◌, ◌≤◌, ◌<◌, ◌/◌, ◌%◌, ◌^◌, ℤ, pos, length, take};
ghost use Rattle.arrayvec.specs.ArrayString.{array_string_len};
ghost use Rattle.paper.specs.Placard.{digits};
ghost use Rattle.numerals.specs.Numerals.{numeral, digit_of, size_of, most_digits, value_of};

use arrayvec::ArrayString;
use itoa::{Buffer, Integer};

// The most digits that a number has when it is read.
const DIGITS: usize = 18;

// The most digits that a number without a sign has.
const PLACES: usize = 20;

// A type of integer whose numbers are written.
pub trait Number: Integer {
    ghost value: { Self → ℤ };

    // It runs nothing, and promises that itoa prints the number's numeral.
    fn spelled(self)
        ensures { Self.text self ≡ numeral (value self) };
}

impl Number for u64 {
    ghost value = { pos };

    #[inline(always)]
    fn spelled(self) {}
}

impl Number for i64 {
    ghost value = { λ x. x };

    #[inline(always)]
    fn spelled(self) {}
}

// Writes a number behind what stands in a text, with a minus in front of one below 0.
pub fn put_number<const N: usize, I: Number>(text: &mut ArrayString<N>, x: I)
    requires { array_string_len text.old + length (numeral (I.value x)) ≤ N }
    ensures { text.new.bytes ≡ text.old.bytes ++ numeral (I.value x) }
{
    x.spelled();
    text.push_str(Buffer::new().format(x));
}

// The digit at a place of a number, from its last one on.
#[inline(always)]
fn digit_at(n: u64, place: usize) -> u8
    ensures { (result ≡ n / 10 ^ place % 10) × (result < 10) }
{
    if place < PLACES {
        (n / 10u64.pow(place as u32) % 10) as u8
    } else {
        0
    }
}

// Writes the last `k` decimal digits of a number behind what stands in a text, with noughts in front where it has fewer.
pub fn put_digits<const N: usize>(text: &mut ArrayString<N>, k: usize, n: u64)
    requires { array_string_len text.old + k ≤ N }
    ensures { text.new.bytes ≡ text.old.bytes ++ digits k n }
{
    for place in (0..k).rev() {
        text.push(char::from(b'0' + digit_at(n, place)));
    }
}

// What a digit counts.
#[tactic(auto, unfolding(crate::specs::Numerals::digit_of))]
fn digit(x: u8) -> u64
    ensures { (result ≡ digit_of x) × (result < 10) }
{
    u64::from(x.saturating_sub(b'0') % 10)
}

// The number of the first eighteen digits.
fn size_of(s: &[u8]) -> u64
    ensures { (result ≡ size_of (take most_digits s.now)) × (result < 10 ^ most_digits) }
{
    let mut n = 0;
    for x in &s[..s.len().min(DIGITS)] {
        n = n * 10 + digit(*x);
    }
    n
}

// The number of a word. Not `parse`: a word that is no number has one here too.
pub fn number_of(s: &[u8]) -> i64
    ensures { result ≡ value_of s.now }
{
    match s.strip_prefix(b"-") {
        Some(digits) => -(size_of(digits) as i64),
        None => size_of(s) as i64,
    }
}
