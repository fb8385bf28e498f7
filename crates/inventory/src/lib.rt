#![tactic(auto)]

// The equipment of a record by station: into three lent columns, and as text, the schedule.
ghost use Rattle.std.specs.Prelude.{◌≡◌, true, not};
ghost use Rattle.paper.specs.Record.{balance_of, is_none};
ghost use Rattle.paper.specs.Refusals.{accepted};
ghost use Rattle.paper.specs.Answers.{equipment_answer};
ghost use Rattle.record.specs.Held.{slotted, held_by};
ghost use Rattle.fittings.specs.Fittings.{Tells};
ghost use Rattle.schedule.specs.Schedules.{schedule_answer};
ghost use Rattle.inventory.specs.Most.{IsMost};

use fittings::Fittings;
use paper::Refusal;
use record::Record;

// The most arms that a record has: a weighing, and behind it a change at each arm.
pub const MOST: usize = 63;

// How many they are, as a promise.
pub fn most() -> usize
    ensures { IsMost result }
{
    MOST
}

// The equipment of a record's entries, each of which is accepted.
fn fittings_of(log: &Record) -> Fittings
    requires { accepted (slotted log.now) ≡ true }
    ensures { Tells (slotted log.now) result }
{
    let mut fittings = Fittings::new();
    for e in log.entries() {
        fittings.note(*e);
    }
    fittings
}

// Whether a record has a weighing, and its equipment.
fn survey(r: &Record) -> (bool, Fittings)
    ensures weighed { result.0 ≡ not (is_none (balance_of (held_by r.now))) }
    ensures fittings { Tells (held_by r.now) result.1 }
{
    let now = record::replay(r);
    let weighed = now.standing.balance.is_some();
    (weighed, fittings_of(&now.log))
}

// The equipment of a record into three columns, and how many arms there are: 7 before a weighing, 11 where any column is too
// short, and then none changes.
pub fn equipment(
    r: &Record,
    arms: &mut [i64],
    weights: &mut [i64],
    nonlifting: &mut [i64],
) -> Result<usize, Refusal>
    ensures { (result, arms.new, weights.new, nonlifting.new) ≡ equipment_answer (held_by r.now) arms.old weights.old nonlifting.old }
{
    let (weighed, fittings) = survey(r);
    columns::answer(weighed, fittings.equipment(), arms, weights, nonlifting)
}

// The schedule of a record, and how many bytes it has: 7 before a weighing, 11 where the buffer is too short, and then no byte of
// it changes.
pub fn show(r: &Record, out: &mut [u8]) -> Result<usize, Refusal>
    ensures { (result, out.new) ≡ schedule_answer (held_by r.now) out.old }
{
    let (weighed, fittings) = survey(r);
    schedule::answer(weighed, fittings.equipment(), out)
}
