#![tactic(auto)]

// The columns of equipment by station, filled from a list of it.
ghost use Rattle.std.specs.Prelude.{◌≡◌, ◌≤◌, length, not, List};
ghost use Rattle.paper.specs.declared.Entry.{Entry};
ghost use Rattle.paper.specs.Record.{balance_of, is_none};
ghost use Rattle.paper.specs.Equipment.{fitted, equipment_of, arm_column, weight_column, nonlifting_column};
ghost use Rattle.paper.specs.Answers.{over, equipment_answer};

use paper::{Equipment, Refusal};

// Each column at its front; what stands behind the last of a column stays.
fn put(items: &[Equipment], arms: &mut [i64], weights: &mut [i64], nonlifting: &mut [i64])
    requires arms { length items.now ≤ length arms.old }
    requires weights { length items.now ≤ length weights.old }
    requires nonlifting { length items.now ≤ length nonlifting.old }
    ensures arms { arms.new ≡ over (arm_column items.now) arms.old }
    ensures weights { weights.new ≡ over (weight_column items.now) weights.old }
    ensures nonlifting { nonlifting.new ≡ over (nonlifting_column items.now) nonlifting.old }
{
    for (i, x) in items.iter().enumerate() {
        arms[i] = x.arm;
        weights[i] = x.weight;
        nonlifting[i] = x.nonlifting;
    }
}

// The columns, and how many arms there are: 7 before a weighing, 11 where any column is too short, and then none changes.
pub fn answer(
    weighed: bool,
    items: &[Equipment],
    arms: &mut [i64],
    weights: &mut [i64],
    nonlifting: &mut [i64],
) -> Result<usize, Refusal>
    ensures { (es : List Entry) → weighed ≡ not (is_none (balance_of es)) → items.now ≡ equipment_of (fitted es) → (result, arms.new, weights.new, nonlifting.new) ≡ equipment_answer es arms.old weights.old nonlifting.old }
{
    if !weighed {
        return Err(Refusal::NoWeighing);
    }
    let n = items.len();
    if arms.len() < n || weights.len() < n || nonlifting.len() < n {
        return Err(Refusal::ShortBuffer);
    }
    put(items, arms, weights, nonlifting);
    Ok(n)
}
