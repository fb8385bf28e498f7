#![tactic(auto)]

// Numbers as the file spells them: bytes with the highest first, and two's complement in four of them.
ghost use Rattle.std.specs.Prelude.{◌≡◌, length};
ghost use Rattle.paper.specs.File.{bytes_of, number_of, complement, signed_word, field_value};

use std::num::wrapping_add_u32;

// How many words there are.
const WORDS: u64 = 4_294_967_296;

// The first word that stands for a number below 0.
const MIDDLE: u32 = 2_147_483_648;

// The number that four bytes spell.
#[inline(always)]
pub fn number_of(bytes: [u8; 4]) -> u32
    ensures { result ≡ number_of bytes }
{
    u32::from_be_bytes(bytes)
}

// The last bytes of a number, as many as the slice has.
pub fn put_number(out: &mut [u8], n: u64)
    ensures { out.new ≡ bytes_of (length out.old) n }
{
    let mut rest = n;
    for i in (0..out.len()).rev() {
        out[i] = (rest % 256) as u8;
        rest = rest / 256;
    }
}

// A signed number as the word that stands for it. One below what four bytes hold, which no call accepts, is 0.
pub fn word_of(x: i64) -> u64
    ensures { result ≡ complement 4 x }
{
    if x < 0 {
        WORDS.saturating_sub(x.unsigned_abs())
    } else {
        x.unsigned_abs()
    }
}

// A signed number as the word of eight bytes that stands for it.
pub fn long_of(x: i64) -> u64
    ensures { result ≡ complement 8 x }
{
    x.cast_unsigned()
}

// The signed number that a word stands for: words from the middle on are below 0. There is no branch in it, so that the four
// bytes of a word are read at once.
pub fn signed(n: u32) -> i64
    ensures { result ≡ field_value signed_word n }
{
    wrapping_add_u32(n, MIDDLE) as i64 - MIDDLE as i64
}
