#![tactic(auto)]

// A seat entry's condition, by the entry alone, and what is in force: a sheet, and the ends that its front arm lies between.
ghost use Rattle.std.specs.Prelude.{◌≡◌, false, [], ◌∷◌, IfOk};
ghost use Rattle.paper.specs.Numbers.{number_in};
ghost use Rattle.paper.specs.Refusals.{first_number, ◌when◌, sheet_faults, bad_ends};

use paper::{Refusal, Seat, Sheet, arm};

// Number 2's condition.
pub fn bad_ends(f: Seat) -> bool
    ensures { result ≡ bad_ends f }
{
    !(arm::holds(f.lower) && arm::holds(f.higher) && f.lower <= f.higher)
}

// A sheet in force, with the ends that its front arm lies between. Both were accepted.
#[derive(Clone, Copy)]
pub struct InForce {
    pub sheet: Sheet,
    pub seat: Seat,
    pub ghost accepted: { first_number (sheet_faults sheet) ≡ 0 },
    pub ghost in_order: { bad_ends seat ≡ false },
}

impl InForce {
    ghost use Rattle.std.proofs.Math.Option.{none};
    ghost use Rattle.paper.specs.Record.{ends_of};
    ghost use Rattle.seat.specs.InForce.{as_pair};

    // A sheet comes with its own arm: both ends are there.
    pub fn new(sheet: Sheet) -> Result<InForce, Refusal>
        ensures number { number_in result ≡ first_number (sheet_faults sheet) }
        ensures accepted { IfOk result (λ r. as_pair r ≡ (sheet, ends_of sheet none)) }
    {
        sheet::check(sheet)?;
        let seat = Seat {
            lower: sheet.front.arm,
            higher: sheet.front.arm,
        };
        Ok(InForce { sheet, seat })
    }

    // A seat entry moves the ends.
    pub fn moved(self, seat: Seat) -> Result<InForce, Refusal>
        ensures number { number_in result ≡ first_number (2 when bad_ends seat ∷ []) }
        ensures accepted { IfOk result (λ r. as_pair r ≡ (self.sheet, seat)) }
    {
        if bad_ends(seat) {
            return Err(Refusal::Distance);
        }
        Ok(InForce {
            sheet: self.sheet,
            seat,
        })
    }
}
