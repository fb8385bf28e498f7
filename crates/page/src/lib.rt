#![tactic(auto)]

// The placard of what stands: a line for each row, into a lent buffer.
ghost use Rattle.std.specs.Prelude.{◌≡◌, List, ◌*◌, ◌≤◌, length};
ghost use Rattle.laws.specs.Written.{written};
ghost use Rattle.paper.specs.Rows.{row_count};
ghost use Rattle.paper.specs.Placard.{text, line_length, blank_count};
ghost use Rattle.paper.specs.Answers.{placard_answer};
ghost use Rattle.balance.specs.Balance.{plain, Bounded};
ghost use Rattle.judge.specs.Standing.{stands_in, plainly};

use balance::Balance;
use group::{LINE, Terms, WATERS};
use judge::Standing;
use paper::{Placard, Refusal};
use seat::InForce;

// A line for each row, and how many of them are blank.
fn put_rows(force: &InForce, b: Balance, out: &mut [u8]) -> usize
    requires { Bounded 1024 b × (line_length * row_count force.now.sheet ≤ length out.old) }
    ensures { let f = force.now in (result ≡ blank_count f.sheet f.seat (plain b)) × (out.new ≡ written out.old 0 (text f.sheet f.seat (plain b))) }
{
    let terms = Terms::new(*force);
    let rears = sheet::loads(force.sheet.rear) as usize;
    let waters = sheet::loads(force.sheet.water) as usize;
    let mut room = [line::field(0); WATERS];
    let fields = &mut room[..waters];
    group::put_waters(force, fields);
    let mut none = 0;
    for j in 0..rears {
        none += terms.put_group(b, j, fields, &mut out[LINE * (j * waters)..]);
    }
    none
}

// How many rows the placard of a sheet has.
fn row_count(force: &InForce) -> usize
    ensures { (result ≡ row_count force.now.sheet) × (result ≤ 256) }
{
    sheet::rows(&force.sheet) as usize
}

// The placard of what stands: 7 before a weighing, 8 without a sheet, 11 where the buffer is too short, and then no byte of it
// changes.
pub fn answer(standing: &Standing, out: &mut [u8]) -> Result<Placard, Refusal>
    ensures { (es : List _) → plainly standing.now ≡ stands_in es → (result, out.new) ≡ placard_answer es out.old }
{
    let b = standing.balance.ok_or(Refusal::NoWeighing)?;
    let force = standing.force.ok_or(Refusal::NoSheet)?;
    let rows = row_count(&force);
    let bytes = LINE * rows;
    if out.len() < bytes {
        return Err(Refusal::ShortBuffer);
    }
    let blank = put_rows(&force, b, out);
    Ok(Placard { bytes, rows, blank })
}
