#![tactic(auto)]

// The lines of limits, solved for the number of front steps: each narrows a span of numbers. What is aboard beside the front load
// is in half grams, and so is all that is reckoned here.
ghost use Rattle.std.specs.Prelude.{◌≡◌, ◌&&◌, ◌||◌, true, ℕ, ◌+◌, ◌*◌, eqb, pos, ◌+ℤ◌};
ghost use Rattle.paper.specs.Units.{is_arm, half_grams};
ghost use Rattle.paper.specs.Record.{Balance};
ghost use Rattle.aboard.specs.Aboard.{Beside, Room};
ghost use Rattle.solver.specs.Span.{within};
ghost use Rattle.limits.specs.Seats.{forward_margin, safe_margin, weight_test, fwd_test, aft_test, is_load, StepAt, Seated, NoneOf, AllOf};

use aboard::{Arms, Laden};
use laws::Sides;
use paper::weight;
use seat::InForce;
use solver::Span;

// The front seat of the sheet in force: the numbers of steps that there are, and what a step weighs and turns at each of its two
// ends.
#[derive(Clone, Copy)]
pub struct Front {
    pub arms: Arms,
    pub steps: Span,
    pub lower: Laden,
    pub higher: Laden,
    pub ghost steps_are: { (k : ℕ) → within steps k ≡ is_load arms.force.sheet k },
    pub ghost lower_is: { StepAt arms.force.sheet arms.force.seat.lower lower },
    pub ghost higher_is: { StepAt arms.force.sheet arms.force.seat.higher higher },
}

// The margin to FWD: the moment less the one that FWD has at that weight.
fn forward_margin(x: &Laden) -> Sides
    requires { Room 256 x.now }
    ensures { result ≡ forward_margin x.now }
{
    x.moment - x.forward
}

// The margin to the safe aft limit, twenty times: its moment at that weight less the moment.
fn safe_margin(x: &Laden) -> Sides
    requires { Room 256 x.now }
    ensures { result ≡ safe_margin x.now }
{
    x.safe - x.moment * 20
}

// The numbers of steps from the least front load to the greatest, and to at least a gram, since somebody is in the seat.
fn steps(force: &InForce) -> Span
    ensures { (k : ℕ) → within result k ≡ is_load force.now.sheet k }
{
    let front = force.sheet.front;
    Span {
        lo: force.sheet.least.max(1).div_ceil(front.step),
        hi: front.most / front.step,
    }
}

// What a step of the front seat weighs and turns at an arm.
fn step_at(arms: &Arms, arm: i64) -> Laden
    requires { is_arm arm ≡ true }
    ensures { StepAt arms.now.force.sheet arm result }
{
    arms.grams_at(arms.force.sheet.front.step, Sides::from(arm))
}

impl Front {
    pub fn new(arms: Arms) -> Front
        ensures { result.arms ≡ arms }
    {
        let seat = arms.force.seat;
        let steps = steps(&arms.force);
        let lower = step_at(&arms, seat.lower);
        let higher = step_at(&arms, seat.higher);
        Front {
            arms,
            steps,
            lower,
            higher,
        }
    }

    // Of some steps, those that with so many half grams beside them weigh at most `most`.
    fn weight_limit(&self, span: Span, weight: u64, most: u64) -> Span
        ensures { (k : ℕ) → within result k ≡ (within span k && weight_test weight self.now.lower k most) }
    {
        let each = Sides {
            up: 0,
            down: self.lower.weight,
        };
        span.narrow(
            Sides {
                up: most,
                down: weight,
            },
            each,
        )
    }

    // The greatest non-lifting weight: 0 is no limit.
    fn non_lifting_limit(&self, span: Span, weight: u64, most: u64) -> Span
        ensures { (k : ℕ) → within result k ≡ (within span k && (eqb most 0 || weight_test weight self.now.lower k most)) }
    {
        if most == 0 {
            return span;
        }
        self.weight_limit(span, weight, most)
    }

    // FWD, for which a load at the lower end is the worst.
    fn fwd_limit(&self, span: Span, x: &Laden) -> Span
        requires { Room 256 x.now }
        ensures { (k : ℕ) → within result k ≡ (within span k && fwd_test x.now self.now.lower k) }
    {
        span.narrow(forward_margin(x), forward_margin(&self.lower))
    }

    // The safe aft limit, for which one at the higher end is.
    fn aft_limit(&self, span: Span, x: &Laden) -> Span
        requires { Room 256 x.now }
        ensures { (k : ℕ) → within result k ≡ (within span k && aft_test x.now self.now.higher k) }
    {
        span.narrow(safe_margin(x), safe_margin(&self.higher))
    }

    // The numbers of steps that keep every limit with none of the water aboard.
    pub fn with_none(&self, x: &Laden, nonlifting: u64) -> Span
        requires { Room 256 x.now }
        ensures { let f = self.now.arms.force in Seated f.sheet result × ((b : Balance) (rear : ℕ) → Beside f.sheet b rear 0 x.now → pos nonlifting ≡ b.non_lifting +ℤ half_grams (pos rear) → NoneOf f.sheet f.seat b rear result) }
    {
        let s = &self.arms.force.sheet;
        let span = self.weight_limit(self.steps, x.weight, weight::HALVES * s.dry);
        let span = self.weight_limit(span, x.weight, weight::HALVES * s.wet);
        let span = self.non_lifting_limit(span, nonlifting, weight::HALVES * s.nlp);
        let span = self.fwd_limit(span, x);
        self.aft_limit(span, x)
    }

    // Those of them that keep every limit with all of the water aboard, and so with every part: water works against FWD where it
    // lies ahead of it, and else only against the safe aft limit.
    pub fn with_all(&self, span: Span, x: &Laden) -> Span
        requires { Room 256 x.now }
        ensures { let f = self.now.arms.force in ((k : ℕ) → within result k ≡ true → within span k ≡ true) × ((b : Balance) (rear w : ℕ) → Beside f.sheet b rear w x.now → NoneOf f.sheet f.seat b rear span → AllOf f.sheet f.seat b rear w result) }
    {
        let s = &self.arms.force.sheet;
        let wet = self.weight_limit(span, x.weight, weight::HALVES * s.wet);
        if s.water.arm < s.fwd {
            return self.fwd_limit(wet, x);
        }
        self.aft_limit(wet, x)
    }
}
