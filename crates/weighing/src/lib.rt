#![tactic(auto)]

// What a weighing says, plain or paired: its balance, from one reading or two, or why it is refused.
ghost use Rattle.std.specs.Prelude.{◌≡◌, refl, IfOk};
ghost use Rattle.paper.specs.Numbers.{number_in};
ghost use Rattle.paper.specs.Record as paper;
ghost use Rattle.paper.specs.Refusals.{bad_distance, weighing_faults, first_number};
ghost use Rattle.reading.specs.Readings.{Says, InGrams};
ghost use Rattle.weighing.specs.Readings.{both, reading_of, paired_distances};
ghost use Rattle.balance.specs.Balance.{plain, Bounded};

use balance::Balance;
use paper::{Paired, Refusal, Weighing};
use reading::{Reading, bad_distance, bad_nonlifting, bad_reading, reckoned};

// A weighing as two readings, each of them a plain weighing with the same distances.
pub trait Readings: Copy {
    ghost readings: { Self → paper.Readings };

    fn first(self) -> Weighing
        ensures { result ≡ (readings self).first };

    fn second(self) -> Weighing
        ensures { result ≡ (readings self).second };

    ghost same_distances: { (x : Self) → bad_distance (readings x).second ≡ bad_distance (readings x).first };

    // Whether both are accepted behind 9, or why they are refused. A kind whose readings are one judges it once.
    #[inline(always)]
    fn check(self) -> Result<(), Refusal>
        ensures { number_in result ≡ first_number (weighing_faults (readings self)) }
    {
        check_both(self.first(), self.second())
    }

    // G, M and n of both, once they are accepted. A kind whose readings are one adds it up once.
    #[inline(always)]
    fn balance(self) -> Balance
        requires { first_number (weighing_faults (readings self)) ≡ 0 }
        ensures { (plain result ≡ paper.weighed (readings self)) × Bounded 1 result }
    {
        added(reckoned(self.first()), reckoned(self.second()))
    }
}

// A plain weighing counts as the pair of itself with itself.
impl Readings for Weighing {
    ghost readings = { paper.alike };

    ghost same_distances = { λ x. refl };

    fn first(self) -> Weighing {
        self
    }

    fn second(self) -> Weighing {
        self
    }

    #[inline(always)]
    fn check(self) -> Result<(), Refusal> {
        let misread = bad_reading(self);
        let distance = bad_distance(self);
        if misread {
            return Err(Refusal::Reading);
        }
        if distance {
            return Err(Refusal::Distance);
        }
        if bad_nonlifting(self) {
            return Err(Refusal::NonLifting);
        }
        Ok(())
    }

    #[inline(always)]
    fn balance(self) -> Balance {
        let r = reckoned(self);
        added(r, r)
    }
}

impl Readings for Paired {
    ghost readings = { paper.paired };

    ghost same_distances = { paired_distances };

    fn first(self) -> Weighing {
        reading(self, self.p, self.q)
    }

    fn second(self) -> Weighing {
        reading(self, self.p2, self.q2)
    }
}

// A reading of a paired weighing.
fn reading(x: Paired, p: u64, q: u64) -> Weighing
    ensures { result ≡ reading_of x p q }
{
    Weighing {
        m: x.m,
        p,
        q,
        a: x.a,
        b: x.b,
        n: x.n,
    }
}

// Whether two readings are accepted behind 9, or why they are refused: by number, and not reading by reading. Inlined, since a
// call copies both.
#[inline(always)]
fn check_both(first: Weighing, second: Weighing) -> Result<(), Refusal>
    requires { bad_distance second ≡ bad_distance first }
    ensures { number_in result ≡ first_number (weighing_faults (both first second)) }
{
    let distance = bad_distance(first);
    let reading = bad_reading(first) | bad_reading(second);
    if reading {
        return Err(Refusal::Reading);
    }
    if distance {
        return Err(Refusal::Distance);
    }
    if bad_nonlifting(first) | bad_nonlifting(second) {
        return Err(Refusal::NonLifting);
    }
    Ok(())
}

// Two readings added up: grams of each give half grams of the glider.
fn added(first: Reading, second: Reading) -> Balance
    requires { InGrams first × InGrams second }
    ensures { ((v w : _) → Says v first → Says w second → plain result ≡ paper.weighed (both v w)) × Bounded 1 result }
{
    Balance {
        total: first.total + second.total,
        moment: first.moment + second.moment,
        nonlifting: first.nonlifting + second.nonlifting,
    }
}

// G, M and n of an accepted weighing, or why it is refused behind 9.
pub fn weighed<W: Readings>(w: W) -> Result<Balance, Refusal>
    ensures number { number_in result ≡ first_number (weighing_faults (W.readings w)) }
    ensures accepted { IfOk result (λ b. (plain b ≡ paper.weighed (W.readings w)) × Bounded 1 b) }
{
    w.check()?;
    Ok(w.balance())
}
