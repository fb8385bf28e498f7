#![tactic(auto)]

// A row of the placard: the smallest and the largest front load that keeps every limit beside a rear load and water.
ghost use Rattle.std.specs.Prelude.{◌≡◌, ℕ};
ghost use Rattle.paper.specs.Record.{Balance};
ghost use Rattle.paper.specs.Rows as rows;
ghost use Rattle.paper.specs.Placard.{RowFits};
ghost use Rattle.aboard.specs.Aboard.{Beside, Room};
ghost use Rattle.limits.specs.Seats.{Seated, NoneOf};

use aboard::Laden;
use limits::Front;
use paper::Row;
use solver::Span;

// The row of what is aboard, where a span holds the steps that keep every limit beside its rear load with none of the water: a
// fixed number of operations whatever the loads.
pub fn row(front: &Front, span: Span, x: &Laden) -> Row
    requires { Room 256 x.now × Seated front.now.arms.force.sheet span }
    ensures { let f = front.now.arms.force in RowFits result × ((b : Balance) (rear w : ℕ) → Beside f.sheet b rear w x.now → NoneOf f.sheet f.seat b rear span → result ≡ rows.row f.sheet f.seat b rear w) }
{
    front
        .with_all(span, x)
        .row(front.arms.force.sheet.front.step)
}
