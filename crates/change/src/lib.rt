#![tactic(auto)]

// What a change makes of a balance, or why it is refused.
ghost use Rattle.std.specs.Prelude.{◌≡◌, cond, ℕ, ◌+◌, ◌^◌, ◌<◌, ◌≤◌, eqb, IfOk, pos, negsuc, ◌≤ℤ◌};
ghost use Rattle.std.proofs.Math.Option.{some};
ghost use Rattle.paper.specs.Record as paper;
ghost use Rattle.paper.specs.Units.{half_grams};
ghost use Rattle.paper.specs.Numbers.{number_in};
ghost use Rattle.paper.specs.Refusals.{is_change, change_faults, first_number};
ghost use Rattle.balance.specs.Balance.{an_entry, plain, Ranged, Bounded};

use balance::Balance;
use laws::Sides;
use paper::{Change, Refusal, arm, weight};

// Whether c and the flag are in their ranges.
fn in_range(x: Change) -> bool
    ensures { result ≡ is_change x }
{
    weight::SIGNED_LEAST <= x.c && x.c <= weight::SIGNED_MOST && x.c != 0 && x.flag <= 1
}

// Grams as half grams.
fn half_grams(c: i64) -> i64
    requires { (negsuc 1999999 ≤ℤ c) × (c ≤ℤ pos 2000000) }
    ensures { result ≡ half_grams c }
{
    weight::SIGNED_HALVES * c
}

// What of a change counts as non-lifting: all of what it adds where the flag is 1.
fn counted(flag: u64, gain: i64) -> i64
    ensures { result ≡ cond (eqb flag 1) gain (pos 0) }
{
    if flag == 1 { gain } else { 0 }
}

// G and n behind an accepted change, in half grams, or why it is refused behind 9 and 7.
#[inline(always)]
fn weights(b: Balance, x: Change) -> Result<(u64, u64), Refusal>
    requires { Ranged b }
    ensures number { number_in result ≡ first_number (change_faults (some (plain b)) x) }
    ensures accepted { IfOk result (λ w. (pos w.0 ≡ (paper.changed (plain b) x).total) × (pos w.1 ≡ (paper.changed (plain b) x).non_lifting)) }
{
    if !arm::holds(x.arm) {
        return Err(Refusal::Distance);
    }
    if !in_range(x) {
        return Err(Refusal::Change);
    }
    let gain = half_grams(x.c);
    let total = b.total as i64 + gain;
    if total < weight::HALVES_LEAST || weight::HALVES_MOST < total {
        return Err(Refusal::Change);
    }
    let part = b.nonlifting as i64 + counted(x.flag, gain);
    if part < 0 || total < part {
        return Err(Refusal::NonLifting);
    }
    Ok((total as u64, part as u64))
}

// Whether a change is accepted, whatever the moment is, or why it is refused behind 9 and 7.
pub fn check(b: Balance, x: Change) -> Result<(), Refusal>
    requires { Ranged b }
    ensures { number_in result ≡ first_number (change_faults (some (plain b)) x) }
{
    weights(b, x)?;
    Ok(())
}

// The balance behind an accepted change, or why it is refused behind 9 and 7.
pub fn changed(b: Balance, x: Change) -> Result<Balance, Refusal>
    requires { Ranged b × (b.moment.up < 2 ^ 59) × (b.moment.down < 2 ^ 59) }
    ensures number { number_in result ≡ first_number (change_faults (some (plain b)) x) }
    ensures accepted { IfOk result (λ r. (plain r ≡ paper.changed (plain b) x) × ((k : ℕ) → Bounded k b → Bounded (k + 1) r)) }
    ensures bounds { IfOk result (λ r. Ranged r × (r.moment.up ≤ b.moment.up + an_entry) × (r.moment.down ≤ b.moment.down + an_entry)) }
{
    let (total, nonlifting) = weights(b, x)?;
    let gain = half_grams(x.c);
    let more = Sides::from(gain * x.arm);
    Ok(Balance {
        total,
        moment: b.moment + more,
        nonlifting,
    })
}
