#![tactic(auto)]

// What an indicator sends, as the paired weighing that its four readings feed.
ghost use Rattle.std.specs.Prelude.{◌≡◌, not, ◌||◌, cond, nat_abs, Ok, Err, ok_or};
ghost use Rattle.paper.specs.declared.Refusal.TheVariants as refusal;
ghost use Rattle.paper.specs.Numbers.{answer_of};
ghost use Rattle.paper.specs.Indicator.{is_load, bad_load, net, reading_by, reading_of, kilograms_of, paired_of, sent, sent_by};
ghost use Rattle.paper.specs.Refusals.{first_number, indicator_faults};
ghost use lib.Ieee.{lt};
ghost use lib.Ieee.Scale.{finite};

use paper::{Cell, Indicated, Message, Paired, Reading, Refusal};

// A reading by its state.
fn reading_by(state: u8, x: f64) -> Option<Reading>
    ensures { result ≡ reading_by state x }
{
    match state {
        1 => Some(Reading::Stable(x)),
        2 => Some(Reading::Moving(x)),
        3 => Some(Reading::Over),
        _ => None,
    }
}

// What nine bytes say: the state, and the float whose pattern the other eight spell.
fn reading_of(s: &[u8]) -> Option<Reading>
    ensures { result ≡ reading_of s.now }
{
    let (state, float) = s.split_first()?;
    let pattern = u64::from_be_bytes(*float.as_array::<8>()?);
    reading_by(*state, floats::of_bits(pattern))
}

// The kilograms of a message that is a stable reading.
#[tactic(auto, unfolding(paper::specs::Indicator::kilograms_of))]
fn kilograms(s: Message) -> Result<f64, Refusal>
    ensures { result ≡ ok_or (kilograms_of (sent s.entry)) refusal.Unsteady }
{
    match reading_of(s.bytes) {
        Some(Reading::Stable(x)) => Ok(x),
        Some(Reading::Moving(_) | Reading::Over) | None => Err(Refusal::Unsteady),
    }
}

// Whether the rating is not finite, the reading or the zero no load, or the reading above the rating.
#[tactic(auto, using(crate::proofs::Nets::finite_is))]
fn is_no_load(cell: Cell, x: f64) -> bool
    ensures { result ≡ (not (finite cell.rated) || not (is_load x) || not (is_load cell.zero) || lt cell.rated x) }
{
    !cell.rated.is_finite() || !floats::is_load(x) || !floats::is_load(cell.zero) || cell.rated < x
}

// The net of a reading with its cell, in grams: the zero's off the reading's, or, turned round, the reading's off the zero's.
#[tactic(auto, using(crate::proofs::Nets::taken_off), unfolding(paper::specs::Indicator::bad_load, paper::specs::Indicator::net))]
fn net(turned: bool, cell: Cell, x: f64) -> Result<u64, Refusal>
    ensures { result ≡ cond (bad_load turned cell x) (Err refusal.Load) (Ok (nat_abs (net turned cell x))) }
{
    if is_no_load(cell, x) {
        return Err(Refusal::Load);
    }
    let zero = floats::grams(cell.zero);
    let shown = floats::grams(x);
    let net = if turned {
        zero.checked_sub(shown)
    } else {
        shown.checked_sub(zero)
    };
    net.ok_or(Refusal::Load)
}

// The paired weighing that four readings feed: 13 of any of them before 14 of any.
pub fn pair(x: Indicated) -> Result<Paired, Refusal>
    ensures { result ≡ answer_of (first_number (indicator_faults (sent_by x.entry))) (paired_of (sent_by x.entry)) }
{
    let turned = x.m == 4;
    let p = kilograms(x.p)?;
    let q = kilograms(x.q)?;
    let p2 = kilograms(x.p2)?;
    let q2 = kilograms(x.q2)?;
    Ok(Paired {
        m: x.m,
        p: net(false, x.p.cell, p)?,
        q: net(turned, x.q.cell, q)?,
        p2: net(false, x.p2.cell, p2)?,
        q2: net(turned, x.q2.cell, q2)?,
        a: x.a,
        b: x.b,
        n: x.n,
    })
}
