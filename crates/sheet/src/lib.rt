#![tactic(auto)]

// Whether a data sheet is accepted, by the sheet alone.
ghost use Rattle.std.specs.Prelude.{◌≡◌, false, ◌+◌, ◌/◌, ◌≤◌};
ghost use Rattle.paper.specs.Numbers.{number_in};
ghost use Rattle.paper.specs.Rows.{row_count};
ghost use Rattle.paper.specs.Refusals.{first_number, bad_arms, bad_ranges, is_step_to, bad_rows, sheet_faults};

use paper::{MOST_ROWS, Refusal, Sheet, Station, arm, weight};

// Number 2's condition.
fn bad_arms(s: Sheet) -> bool
    ensures { result ≡ bad_arms s }
{
    !(arm::holds(s.fwd)
        && arm::holds(s.aft)
        && arm::holds(s.front.arm)
        && arm::holds(s.rear.arm)
        && arm::holds(s.water.arm))
}

// Number 4's condition. DRY is a weight where WET is one.
fn bad_ranges(s: Sheet) -> bool
    ensures { result ≡ bad_ranges s }
{
    !(s.fwd < s.aft
        && 1 <= s.dry
        && s.dry <= s.wet
        && s.wet <= weight::MOST
        && s.nlp <= weight::MOST
        && s.least <= s.front.most
        && s.front.most <= weight::SEAT
        && s.rear.most <= weight::SEAT
        && s.water.most <= weight::MOST)
}

// Whether a station's step is 1 .. most.
fn step_holds(t: Station, most: u64) -> bool
    ensures { result ≡ is_step_to most t }
{
    1 <= t.step && t.step <= most
}

// How many loads a station has on the placard.
pub fn loads(t: Station) -> u64
    requires { (1 ≤ t.step) × (t.most ≤ 2000000) }
    ensures { (result ≡ t.most / t.step + 1) × (result ≤ 2000001) }
{
    t.most / t.step + 1
}

// How many rows a sheet has: one for each rear load with each water.
pub fn rows(s: &Sheet) -> u64
    requires { let s = s.now in (1 ≤ s.rear.step) × (s.rear.most ≤ 2000000) × (1 ≤ s.water.step) × (s.water.most ≤ 2000000) }
    ensures { result ≡ row_count s.now }
{
    loads(s.rear) * loads(s.water)
}

// Number 5's condition, once the loads are in their ranges.
fn bad_rows(s: Sheet) -> bool
    requires { bad_ranges s ≡ false }
    ensures { result ≡ bad_rows s }
{
    !(step_holds(s.front, weight::SEAT)
        && step_holds(s.rear, weight::SEAT)
        && step_holds(s.water, weight::MOST)
        && rows(&s) <= MOST_ROWS)
}

// Whether a sheet is accepted behind 9, or why it is refused.
pub fn check(s: Sheet) -> Result<(), Refusal>
    ensures { number_in result ≡ first_number (sheet_faults s) }
{
    if bad_arms(s) {
        return Err(Refusal::Distance);
    }
    if bad_ranges(s) {
        return Err(Refusal::Range);
    }
    if bad_rows(s) {
        return Err(Refusal::Rows);
    }
    Ok(())
}
