#![tactic(auto)]

// A line of the placard: rear load, water, smallest and largest front load, in 36 bytes. The eight bytes of a field are made as
// one number, a word, and LLVM makes one store of them.
ghost use Rattle.std.specs.Prelude.{◌≡◌, ◌∷◌, ◌++◌, ℕ, ◌+◌, ◌^◌, ◌≤◌, ◌<◌, length};
ghost use Rattle.laws.specs.Written.{written};
ghost use Rattle.paper.specs.Placard.{space, kilograms, ends, line, Fits, RowFits};
ghost use Rattle.line.specs.Word.{packed, word, bytes, Packed, quotients, apart};

use paper::Row;

// `--------` as a word, and `0000.000`: the first byte is the lowest.
const HYPHENS: u64 = 0x2D2D_2D2D_2D2D_2D2D;

const NOUGHT: u64 = 0x3030_302E_3030_3030;

// Two numbers below 10000, each in a half of u, by 100. Times 5243 / 2^19 is near enough, and divides both at once; the mask keeps
// each quotient.
fn by_hundred(u: u64) -> u64
    requires { u < 2 ^ 51 }
    ensures { (l : Packed (2 ^ 32) 2 10000 u) → result ≡ packed (2 ^ 32) (quotients 100 l.parts) }
{
    let t = u * 5243 / 524_288;
    t & 0x7F_0000_007F
}

// Hundreds and what is left of each of the two, each in a quarter.
fn quarters(u: u64) -> u64
    requires { Packed (2 ^ 32) 2 10000 u }
    ensures { (l : Packed (2 ^ 32) 2 10000 u) → result ≡ packed (2 ^ 16) (apart 100 l.parts) }
{
    let h = by_hundred(u);
    h + (u - 100 * h) * 65_536
}

// Four numbers below 100, each in a quarter of z, by 10. Times 103 / 2^10 is near enough; the mask keeps each quotient.
fn by_ten(z: u64) -> u64
    requires { z < 2 ^ 57 }
    ensures { (l : Packed (2 ^ 16) 4 100 z) → result ≡ packed (2 ^ 16) (quotients 10 l.parts) }
{
    let t = z * 103 / 1024;
    t & 0xF_000F_000F_000F
}

// Tens and ones of each of the four, each in a byte; the noughts of a field can be added.
fn eighths(z: u64) -> u64
    requires { Packed (2 ^ 16) 4 100 z }
    ensures { (result < 2 ^ 63) × ((l : Packed (2 ^ 16) 4 100 z) → result ≡ packed (2 ^ 8) (apart 10 l.parts)) }
{
    let d = by_ten(z);
    d + (z - 10 * d) * 256
}

// A load's field as a word: four digits of kilograms, a point, three of grams.
pub fn field(n: u64) -> u64
    requires { Fits n }
    ensures { result ≡ word (kilograms n) }
{
    let m = n as u32;
    let z = quarters(u64::from(m / 1000) + u64::from(m % 1000) * 4_294_967_296);
    eighths(z) + NOUGHT
}

// Each function below puts at the front of the slice that it is lent, and the bytes behind stay.

// A word's bytes, the lowest first: eight assignments, of which either compiler makes one store. By `to_le_bytes` and
// `copy_from_slice` a word takes seven instructions more, and a row of the placard has four.
fn put_word(out: &mut [u8], x: u64)
    requires { 8 ≤ length out.old }
    ensures { out.new ≡ written out.old 0 (bytes x) }
{
    out[0] = (x % 256) as u8;
    out[1] = (x / 256 % 256) as u8;
    out[2] = (x / 65_536 % 256) as u8;
    out[3] = (x / 16_777_216 % 256) as u8;
    out[4] = (x / 4_294_967_296 % 256) as u8;
    out[5] = (x / 1_099_511_627_776 % 256) as u8;
    out[6] = (x / 281_474_976_710_656 % 256) as u8;
    out[7] = (x / 72_057_594_037_927_936 % 256) as u8;
}

// Two fields with a space between.
fn put_pair(out: &mut [u8], a: u64, b: u64)
    requires { 17 ≤ length out.old }
    ensures { out.new ≡ written out.old 0 (bytes a ++ space ∷ bytes b) }
{
    put_word(out, a);
    out[8] = b' ';
    put_word(&mut out[9..], b);
}

// Smallest and largest front load, or hyphens.
fn put_ends(out: &mut [u8], x: Row)
    requires { (17 ≤ length out.old) × RowFits x }
    ensures { out.new ≡ written out.old 0 (ends x) }
{
    let (lo, hi) = match x {
        Some((lo, hi)) => (field(lo), field(hi)),
        None => (HYPHENS, HYPHENS),
    };
    put_pair(out, lo, hi);
}

// The whole line, by the fields of rear load and water: 36 bytes.
pub fn put_line(out: &mut [u8], rear: u64, water: u64, x: Row)
    requires { (36 ≤ length out.old) × RowFits x }
    ensures { (r w : ℕ) → rear ≡ word (kilograms r) → water ≡ word (kilograms w) → out.new ≡ written out.old 0 (line r w x) }
{
    put_pair(out, rear, water);
    out[17] = b' ';
    put_ends(&mut out[18..], x);
    out[35] = b'\n';
}
