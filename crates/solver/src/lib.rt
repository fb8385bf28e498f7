#![tactic(auto)]

// How many steps of front load keep a limit: each limit is solved for the number of steps by one division. So what is found is a
// step, and nothing is rounded afterwards.
ghost use Rattle.std.specs.Prelude.{◌≡◌, ◌&&◌, true, ℕ, ◌+◌, ◌*◌, ◌^◌, ◌<◌, ◌≤◌, leb};
ghost use Rattle.paper.specs.Rows.{row_of};
ghost use Rattle.solver.specs.Span.{within, step_in};

use laws::Sides;
use paper::Row;

// The numbers of steps from lo to hi; none where hi is below lo, as in a range of Rust's.
#[derive(Clone, Copy)]
pub struct Span {
    pub lo: u64,
    pub hi: u64,
}

impl Span {
    // No number.
    const NONE: Span = Span { lo: 1, hi: 0 };

    // The part of a span whose numbers k make at.up + each.up * k at least at.down + each.down * k: where 0 does, all or those up
    // to some number, and else none or those from some number on.
    pub fn narrow(self, at: Sides, each: Sides) -> Span
        ensures { (k : ℕ) → within result k ≡ (within self k && leb (at.down + each.down * k) (at.up + each.up * k)) }
    {
        if at.down <= at.up {
            if each.down <= each.up {
                return self;
            }
            let most = (at.up - at.down) / (each.down - each.up);
            return Span {
                hi: most.min(self.hi),
                ..self
            };
        }
        if each.up <= each.down {
            return Span::NONE;
        }
        let least = (at.down - at.up).div_ceil(each.up - each.down);
        Span {
            lo: least.max(self.lo),
            ..self
        }
    }

    // The row of the loads whose number of steps is in a span: the first and the last of them.
    pub fn row(self, step: u64) -> Row
        requires { (0 < step) × ((k : ℕ) → within self k ≡ true → k * step < 2 ^ 60) }
        ensures { (n : ℕ) → ((k : ℕ) → within self k ≡ true → k * step ≤ n) → result ≡ row_of (step_in step self) n }
    {
        if self.lo <= self.hi {
            Some((self.lo * step, self.hi * step))
        } else {
            None
        }
    }
}
