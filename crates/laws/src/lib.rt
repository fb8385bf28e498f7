#![tactic(auto)]

// With nothing of gliders in them: signed numbers by two sides, and bytes that are copied.
// The crate's specs/ hold the lemmas that every crate above rests on.
ghost use Rattle.std.specs.Prelude.{◌≡◌, ◌^◌, ◌≤◌, ◌<◌, length};
ghost use Rattle.laws.specs.Written.{written};
ghost use Rattle.laws.specs.Sides.{value_of, sides_of, sum_of, difference_of, times_of, Fits};

use std::ops::{Add, Mul, Sub};

// A signed number by two sides, the one less the other.
#[derive(Clone, Copy)]
pub struct Sides {
    pub up: u64,
    pub down: u64,
}

impl Sides {
    // The number, signed.
    pub fn value(self) -> i64
        requires { (self.up < 2 ^ 63) × (self.down < 2 ^ 63) }
        ensures { result ≡ value_of self }
    {
        self.up as i64 - self.down as i64
    }
}

// One side of a number is 0.
impl From<i64> for Sides {
    ghost from_gives = { λ z x. x ≡ sides_of z };

    fn from(z: i64) -> Sides {
        if z < 0 {
            Sides {
                up: 0,
                down: z.unsigned_abs(),
            }
        } else {
            Sides {
                up: z.unsigned_abs(),
                down: 0,
            }
        }
    }
}

impl Add for Sides {
    type Output = Sides;

    ghost can_add = { λ x y. Fits (sum_of x y) };

    ghost add_gives = { λ x y r. r ≡ sum_of x y };

    fn add(self, rhs: Sides) -> Sides {
        Sides {
            up: self.up + rhs.up,
            down: self.down + rhs.down,
        }
    }
}

impl Sub for Sides {
    type Output = Sides;

    ghost can_sub = { λ x y. Fits (difference_of x y) };

    ghost sub_gives = { λ x y r. r ≡ difference_of x y };

    fn sub(self, rhs: Sides) -> Sides {
        Sides {
            up: self.up + rhs.down,
            down: self.down + rhs.up,
        }
    }
}

impl Mul<u64> for Sides {
    type Output = Sides;

    ghost can_mul = { λ x n. Fits (times_of n x) };

    ghost mul_gives = { λ x n r. r ≡ times_of n x };

    fn mul(self, rhs: u64) -> Sides {
        Sides {
            up: rhs * self.up,
            down: rhs * self.down,
        }
    }
}

// Copies bytes to the front of a buffer. The answer is how many. By a loop, since `copy_from_slice` has the archive that LLVM makes
// call `memmove`.
pub fn copy(s: &[u8], out: &mut [u8]) -> usize
    requires { length s.now ≤ length out.old }
    ensures { (result ≡ length s.now) × (out.new ≡ written out.old 0 s.now) }
{
    for i in 0..s.len() {
        out[i] = s[i];
    }
    s.len()
}
