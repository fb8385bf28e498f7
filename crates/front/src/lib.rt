#![tactic(auto)]

// The record that is lent as its file at the front of a buffer: what it holds, and the calls that ask and change nothing. What
// stands behind the file is free.
ghost use Rattle.std.specs.Prelude.{◌≡◌};
ghost use Rattle.paper.specs.Numbers.{number_in};
ghost use Rattle.front.specs.Front.{held_in, FrontOf, Holds, check_number, centre_for, equipment_for, placard_for};

use paper::{CentreOfGravity, Placard, Refusal};
use stored::Contents;

// The bytes that the file at the front takes, by the length that it begins with; none where there are fewer.
fn front(buffer: &[u8]) -> Option<&[u8]>
    ensures { FrontOf buffer.now result }
{
    let length = buffer.first_chunk::<4>()?;
    let behind = words::number_of(*length) as usize;
    buffer.get(..behind + 4)
}

// What the buffer holds: 12 where it holds no record.
pub fn held(buffer: &[u8]) -> Result<Contents, Refusal>
    ensures { Holds (held_in buffer.now) result }
{
    let file = front(buffer).ok_or(Refusal::NoFile)?;
    stored::survey(file).ok_or(Refusal::NoFile)
}

// Whether the buffer holds a record.
pub fn check(buffer: &[u8]) -> Result<(), Refusal>
    ensures { number_in result ≡ check_number buffer.now }
{
    held(buffer)?;
    Ok(())
}

// Total, moment and empty centre of gravity.
pub fn centre(buffer: &[u8]) -> Result<CentreOfGravity, Refusal>
    ensures { result ≡ centre_for (held_in buffer.now) }
{
    centre::answer(&held(buffer)?.standing)
}

// The equipment by station, into three columns.
pub fn equipment(
    buffer: &[u8],
    arms: &mut [i64],
    weights: &mut [i64],
    nonlifting: &mut [i64],
) -> Result<usize, Refusal>
    ensures { (result, arms.new, weights.new, nonlifting.new) ≡ equipment_for (held_in buffer.now) arms.old weights.old nonlifting.old }
{
    let file = front(buffer).ok_or(Refusal::NoFile)?;
    let found = equipped::found(file).ok_or(Refusal::NoFile)?;
    columns::answer(
        found.weighed,
        found.fittings.equipment(),
        arms,
        weights,
        nonlifting,
    )
}

// The placard, into another buffer.
pub fn placard(buffer: &[u8], out: &mut [u8]) -> Result<Placard, Refusal>
    ensures { (result, out.new) ≡ placard_for (held_in buffer.now) out.old }
{
    page::answer(&held(buffer)?.standing, out)
}
