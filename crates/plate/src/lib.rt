#![tactic(auto)]

// The placard of a record: a line for each row of the sheet in force, into a lent buffer.
ghost use Rattle.std.specs.Prelude.{◌≡◌};
ghost use Rattle.paper.specs.Answers.{placard_answer};
ghost use Rattle.record.specs.Held.{held_by};
ghost use Rattle.plate.specs.Longest.{IsLongest};

use paper::{Placard, Refusal};
use record::Record;

// The longest placard: 256 lines.
pub const LONGEST: usize = 9216;

// The longest placard's length, as a promise.
pub fn longest() -> usize
    ensures { IsLongest result }
{
    LONGEST
}

// The placard of a record.
pub fn placard(r: &Record, out: &mut [u8]) -> Result<Placard, Refusal>
    ensures { (result, out.new) ≡ placard_answer (held_by r.now) out.old }
{
    let now = record::replay(r);
    page::answer(&now.standing, out)
}
