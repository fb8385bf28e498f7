#![tactic(auto)]

// What the front load of a row comes on top of: the glider with a rear load and water aboard. It is carried from row to row by
// additions alone.
ghost use Rattle.std.specs.Prelude.{◌≡◌, ℕ, ◌+◌, ◌*◌, ◌≤◌};
ghost use Rattle.laws.specs.Sides.{value_of, Below};
ghost use Rattle.aboard.specs.Sides.{Sided, safe_arm};

use balance::Balance;
use laws::Sides;
use paper::weight;
use seat::InForce;

// The arms of the sheet in force, each by its two sides: FWD, 20 times the safe aft limit, the rear seat, the water.
#[derive(Clone, Copy)]
pub struct Arms {
    pub force: InForce,
    pub fwd: Sides,
    pub safe: Sides,
    pub rear: Sides,
    pub water: Sides,
    pub ghost fwd_is: { Sided 2000000 force.sheet.fwd fwd },
    pub ghost safe_is: { Sided 40000000 (safe_arm force.sheet) safe },
    pub ghost rear_is: { Sided 2000000 force.sheet.rear.arm rear },
    pub ghost water_is: { Sided 2000000 force.sheet.water.arm water },
}

// A weight in half grams, its moment, and the moments that FWD and 20 times the safe aft limit have at that weight. How far it
// may grow is counted by the rows (`Room`), so that is no field of it.
#[derive(Clone, Copy)]
pub struct Laden {
    pub weight: u64,
    pub moment: Sides,
    pub forward: Sides,
    pub safe: Sides,
}

impl Arms {
    ghost use Rattle.balance.specs.Balance.{plain, Bounded};
    ghost use Rattle.aboard.specs.Aboard.{laid_out, Beside, LoadOf, Room, Share};

    pub fn new(force: InForce) -> Arms
        ensures { result.force ≡ force }
    {
        let s = force.sheet;
        let fwd = Sides::from(s.fwd);
        let aft = Sides::from(s.aft);
        // The safe aft limit is 5 % of the range inside AFT.
        let safe = aft * 19 + fwd;
        let rear = Sides::from(s.rear.arm);
        let water = Sides::from(s.water.arm);
        Arms {
            force,
            fwd,
            safe,
            rear,
            water,
        }
    }

    // A weight with its moment.
    fn laid(&self, weight: u64, moment: Sides) -> Laden
        requires { weight ≤ 5000000 }
        ensures { (result ≡ laid_out weight moment self.now) × ((n : ℕ) → weight ≤ n → Below (n * 40000000) result.forward × Below (n * 40000000) result.safe) }
    {
        Laden {
            weight,
            moment,
            forward: self.fwd * weight,
            safe: self.safe * weight,
        }
    }

    // So many grams at an arm: a load, or a step of one.
    pub fn grams_at(&self, grams: u64, arm: Sides) -> Laden
        requires { (grams ≤ 2000000) × Below 2000000 arm }
        ensures { Share result × LoadOf self.now.force.sheet grams (value_of arm) result }
    {
        let weight = weight::HALVES * grams;
        self.laid(weight, arm * weight)
    }

    // The glider with a rear load and no water: what the first row beside it begins with.
    pub fn beside(&self, b: Balance, rear: u64) -> Laden
        requires { Bounded 1024 b × (rear ≤ 500000) }
        ensures { Room 0 result × Beside self.now.force.sheet (plain b) rear 0 result }
    {
        let empty = self.laid(b.total, b.moment);
        empty.carried(self.grams_at(rear, self.rear))
    }
}

impl Laden {
    ghost use Rattle.paper.specs.declared.Sheet.{Sheet};
    ghost use Rattle.paper.specs.Record.{Balance as Plain};
    ghost use Rattle.aboard.specs.Aboard.{plus, Beside, LoadOf, Room, Share};

    // What is carried, with one load more. So the water step's share takes it from a row to the next: its moment is then M with the
    // row's rear load and all its water at their arms.
    pub fn carried(self, load: Laden) -> Laden
        requires { Room 256 self × Share load }
        ensures { (result ≡ plus self load) × ((s : Sheet) (b : Plain) (r w : ℕ) → Beside s b r w self → LoadOf s s.water.step s.water.arm load → Beside s b r (w + s.water.step) result) }
    {
        Laden {
            weight: self.weight + load.weight,
            moment: self.moment + load.moment,
            forward: self.forward + load.forward,
            safe: self.safe + load.safe,
        }
    }
}
