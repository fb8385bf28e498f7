#![tactic(auto)]

// One reading of a weighing, in grams: the conditions that it is refused for, its total and its moment by four methods.
ghost use Rattle.std.specs.Prelude.{◌≡◌, false, ◌≤◌, pos};
ghost use Rattle.laws.specs.Sides.{Below, value_of};
ghost use Rattle.paper.specs.Record as paper;
ghost use Rattle.paper.specs.Refusals.{bad_reading, bad_distance, bad_part};
ghost use Rattle.reading.specs.Readings.{two_products, Says, InGrams};

use laws::Sides;
use paper::{Weighing, arm, weight};

// Number 1's condition. In methods 1 and 2 q is a part of p, in 3 they add up, in 4 q is taken from p. Each test is a way out of its
// own, here and below, and the methods are asked for in turn: as one value the tests take a weighing of a file 20 instructions more.
pub fn bad_reading(w: Weighing) -> bool
    ensures { result ≡ bad_reading w }
{
    if weight::MOST < w.p {
        return true;
    }
    if weight::MOST < w.q {
        return true;
    }
    match w.m {
        1 => w.p < w.q || w.p < 1,
        2 => w.p < w.q || w.p < 1,
        3 => w.p + w.q < 1 || weight::MOST < w.p + w.q,
        4 => w.p <= w.q,
        _ => true,
    }
}

// Number 2's condition.
pub fn bad_distance(w: Weighing) -> bool
    ensures { result ≡ bad_distance w }
{
    if !arm::holds(w.a) {
        return true;
    }
    if w.b < 1 {
        return true;
    }
    arm::DISTANCE_MOST < w.b
}

// G, in grams. It asks for the methods in turn, as `moment` does, so that both are known by one test of each.
fn total(w: Weighing) -> u64
    requires { bad_reading w ≡ false }
    ensures { (pos result ≡ paper.total_of w) × (1 ≤ result) × (result ≤ 2000000) }
{
    match w.m {
        1 => w.p,
        2 => w.p,
        3 => w.p + w.q,
        _ => w.p - w.q,
    }
}

// Number 3's condition.
pub fn bad_nonlifting(w: Weighing) -> bool
    requires { bad_reading w ≡ false }
    ensures { result ≡ bad_part w }
{
    total(w) < w.n
}

// M, in grams.
fn moment(w: Weighing) -> Sides
    requires { (bad_reading w ≡ false) × (bad_distance w ≡ false) }
    ensures { (value_of result ≡ paper.moment_of w) × Below two_products result }
{
    let a = Sides::from(w.a);
    let b = Sides { up: w.b, down: 0 };
    match w.m {
        1 => a * w.p + b * w.q,
        2 => b * (w.p - w.q) - a * w.p,
        3 => b * w.q - a * (w.p + w.q),
        _ => a * (w.p - w.q) - b * w.q,
    }
}

// What one reading says: G, M and n in grams, with no sign.
#[derive(Clone, Copy)]
pub struct Reading {
    pub total: u64,
    pub moment: Sides,
    pub nonlifting: u64,
}

// A reading that has no condition of refusal.
pub fn reckoned(w: Weighing) -> Reading
    requires { (bad_reading w ≡ false) × (bad_distance w ≡ false) × (bad_part w ≡ false) }
    ensures { Says w result × InGrams result }
{
    let moment = moment(w);
    Reading {
        total: total(w),
        moment,
        nonlifting: w.n,
    }
}
