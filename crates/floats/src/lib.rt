#![tactic(auto)]

// Floats by their bits: the float of a pattern, and the whole grams of a load in kilograms. Nothing is reckoned in floating point:
// a float is its significand, a whole number, over a power of two, and 1000 times that number fits 64 bits.
ghost use Rattle.std.specs.Prelude.{◌≡◌, true, ◌<◌, ◌^◌, from_bits};
ghost use Rattle.std.specs.Float.{binary64};
ghost use lib.Ieee.Nearest.{closest};
ghost use Rattle.paper.specs.Indicator.{is_load, grams};

// The pattern of the infinity, the weight of a pattern's sign, and that of its exponent.
const INFINITY: u64 = 0x7ff0_0000_0000_0000;

const SIGN: u64 = 0x8000_0000_0000_0000;

const EXPONENT: u64 = 0x10_0000_0000_0000;

// The exponent in the pattern of 2^-11 kg: what is less has no gram.
const LEAST: u64 = 1012;

// The float of a pattern: all patterns of a NaN have the same one.
pub fn of_bits(pattern: u64) -> f64
    ensures { result ≡ from_bits binary64 pattern }
{
    if INFINITY < pattern % SIGN {
        0.0 / 0.0
    } else {
        f64::from_bits(pattern)
    }
}

// n / unit to the nearest whole number, a tie going to the even one.
fn nearest(n: u64, unit: u64) -> u64
    requires { (n < 2 ^ 63) × (0 < unit) }
    ensures { result ≡ closest n unit }
{
    let whole = n / unit;
    let over = n % unit;
    let lacking = unit - over;
    if over < lacking {
        return whole;
    }
    if lacking < over {
        return whole + 1;
    }
    whole + whole % 2
}

// Whether so many kilograms are a load: a number from nought to 2000.
#[tactic(auto, using(crate::proofs::Loads::from_nought, crate::proofs::Loads::below_nought))]
pub fn is_load(x: f64) -> bool
    ensures { result ≡ is_load x }
{
    0.0 <= x && x <= 2000.0
}

// The whole grams of a load. A pattern's significand, with the leading bit that is not stored, over a power of two is its value.
pub fn grams(x: f64) -> u64
    requires { is_load x ≡ true }
    ensures { result ≡ grams x }
{
    let pattern = x.to_bits();
    let exponent = pattern % SIGN / EXPONENT;
    if exponent < LEAST {
        return 0;
    }
    let significand = EXPONENT + pattern % EXPONENT;
    nearest(significand * 1000, 1 << (1075 - exponent))
}
