#![tactic(auto)]

// The equipment by station of the entries that are passed: the arms of the changes behind the last weighing, each once and the
// foremost first, with the nets there.
ghost use Rattle.std.specs.Prelude.{◌≡◌, true, List, ◌∷◌, ◌++◌, [], ◌<◌, ◌≤◌, IfOk, IfErr};
ghost use Rattle.std.specs.List.{insert};
ghost use Rattle.laws.specs.Z.{Within};
ghost use Rattle.paper.specs.declared.Change.{Change};
ghost use Rattle.paper.specs.declared.Entry.{Entry};
ghost use Rattle.paper.specs.Refusals.{is_change, accepted};
ghost use Rattle.paper.specs.Equipment.{nonlifting_part, equipment_of};
ghost use Rattle.stations.specs.More.{alone, added, most_net};

use paper::{CAPACITY, Change, Entry, Equipment};

// What an unused place holds.
const UNUSED: Equipment = Equipment {
    arm: 0,
    weight: 0,
    nonlifting: 0,
};

// The first `count` places hold the equipment, from the nose aft.
#[derive(Clone, Copy)]
pub struct Fittings {
    pub places: [Equipment; CAPACITY],
    pub count: usize,
    pub ghost few: { count ≤ 64 },
}

// What of a change counts as non-lifting.
fn nonlifting_part(x: Change) -> i64
    ensures { result ≡ nonlifting_part x }
{
    if x.flag == 1 { x.c } else { 0 }
}

// A change by itself.
fn alone(x: Change) -> Equipment
    ensures { result ≡ alone x }
{
    Equipment {
        arm: x.arm,
        weight: x.c,
        nonlifting: nonlifting_part(x),
    }
}

// An arm's equipment with a change there more.
fn added(e: Equipment, x: Change) -> Equipment
    requires weight { Within most_net e.weight }
    requires nonlifting { Within most_net e.nonlifting }
    requires fine { is_change x ≡ true }
    ensures { result ≡ added e x }
{
    Equipment {
        arm: e.arm,
        weight: e.weight + x.c,
        nonlifting: e.nonlifting + nonlifting_part(x),
    }
}

impl Fittings {
    ghost use Rattle.fittings.specs.Fittings.{fitted_in, Admissible, IsAt, IsGap, Tells};

    // No equipment.
    pub fn new() -> Fittings
        ensures { fitted_in result ≡ [] }
    {
        Fittings {
            places: [UNUSED; CAPACITY],
            count: 0,
        }
    }

    // The equipment, from the nose aft.
    pub fn equipment(&self) -> &[Equipment]
        ensures { result.now ≡ fitted_in self.now }
    {
        &self.places[..self.count]
    }

    // The place of an arm, or where it belongs.
    fn search(&self, arm: i64) -> Result<usize, usize>
        requires { (xs : List Change) × (fitted_in self.now ≡ equipment_of xs) }
        ensures found { IfOk result (IsAt (fitted_in self.now) arm) }
        ensures absent { IfErr result (IsGap (fitted_in self.now) arm) }
    {
        self.equipment().binary_search_by_key(&arm, |x| x.arm)
    }

    // Equipment at a place, before what stands there.
    fn insert(&mut self, at: usize, x: Equipment)
        requires { (at ≤ self.old.count) × (self.old.count < 64) }
        ensures { fitted_in self.new ≡ insert (fitted_in self.old) at x }
    {
        self.places.copy_within(at..self.count, at + 1);
        self.places[at] = x;
        self.count += 1;
    }

    // One change more.
    fn add(&mut self, x: Change)
        requires known { (xs : List Change) × (fitted_in self.old ≡ equipment_of xs) × Admissible xs }
        requires fine { is_change x ≡ true }
        ensures { (xs : List Change) → fitted_in self.old ≡ equipment_of xs → fitted_in self.new ≡ equipment_of (xs ++ x ∷ []) }
    {
        match self.search(x.arm) {
            Ok(at) => self.places[at] = added(self.places[at], x),
            Err(at) => self.insert(at, alone(x)),
        }
    }

    // One entry more: a weighing, behind which nothing is fitted yet, a change, or any other, which fits nothing.
    pub fn note(&mut self, e: Entry)
        requires { (es : List Entry) × Tells es self.old × (accepted (es ++ e ∷ []) ≡ true) }
        ensures { (es : List Entry) → Tells es self.old → accepted (es ++ e ∷ []) ≡ true → Tells (es ++ e ∷ []) self.new }
    {
        match e {
            Entry::Weighing(_) | Entry::Paired(_) => self.count = 0,
            Entry::Change(x) => self.add(x),
            Entry::Sheet(_) | Entry::Seat(_) => {}
        }
    }
}
