#![tactic(auto)]

// What a list of entries weighs, as the code carries it, and its empty centre of gravity.
ghost use Rattle.std.specs.Prelude.{◌≡◌};
ghost use Rattle.paper.specs.Record as paper;
ghost use Rattle.balance.specs.Balance.{plain, Bounded};

use laws::Sides;

// G, M and n in half grams.
#[derive(Clone, Copy)]
pub struct Balance {
    pub total: u64,
    pub moment: Sides,
    pub nonlifting: u64,
}

impl Balance {
    // The empty centre of gravity: M/G to the nearest unit, halves towards the tail.
    pub fn centre(self) -> i64
        requires { Bounded 1024 self }
        ensures { result ≡ paper.centre_of (plain self) }
    {
        let total = self.total as i64;
        (2 * self.moment.value() + total).div_euclid(2 * total)
    }
}
