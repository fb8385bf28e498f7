#![tactic(auto)]

// What the papers speak of, as types: weights and arms, the entries, what an indicator sends, a row, and what the calls answer.
// What the papers say of them is in specs/: a file for each heading of paper 01, one for equipment by station and one for the
// indicator.
ghost use Rattle.std.specs.Prelude.{◌≡◌};
ghost use Rattle.paper.specs.declared.Entry.TheVariants as entry;
ghost use Rattle.paper.specs.Numbers.{number_of, number_in, Decodes};

pub mod arm;
pub mod weight;

use std::fmt;

// How many entries a record may hold.
pub const CAPACITY: usize = 64;

// How many rows a placard may have.
pub const MOST_ROWS: u64 = 256;

// A weighing: method m, readings p and q, distances a and b, non-lifting weight n, by the paper's letters.
#[derive(Clone, Copy)]
pub struct Weighing {
    pub m: u64,
    pub p: u64,
    pub q: u64,
    pub a: i64,
    pub b: u64,
    pub n: u64,
}

// A paired weighing: two readings, p and q and then p' and q', with method, distances and non-lifting weight in common.
#[derive(Clone, Copy)]
pub struct Paired {
    pub m: u64,
    pub p: u64,
    pub q: u64,
    pub p2: u64,
    pub q2: u64,
    pub a: i64,
    pub b: u64,
    pub n: u64,
}

// Where a load goes: its arm, the greatest load (for water the tank's capacity) and the step of the placard.
#[derive(Clone, Copy)]
pub struct Station {
    pub arm: i64,
    pub most: u64,
    pub step: u64,
}

// A data sheet: FWD, AFT, DRY, WET, NLP; the front seat with its least load, the rear seat, the water tank.
#[derive(Clone, Copy)]
pub struct Sheet {
    pub fwd: i64,
    pub aft: i64,
    pub dry: u64,
    pub wet: u64,
    pub nlp: u64,
    pub front: Station,
    pub least: u64,
    pub rear: Station,
    pub water: Station,
}

// A change of equipment: its weight c (negative: taken out), its arm, and the flag of a non-lifting part.
#[derive(Clone, Copy)]
pub struct Change {
    pub c: i64,
    pub arm: i64,
    pub flag: u64,
}

// A seat entry: the two ends that the arm of a front load lies between, the lower first.
#[derive(Clone, Copy)]
pub struct Seat {
    pub lower: i64,
    pub higher: i64,
}

// What an indicator sends of a load on a cell: its kilograms, where it is stable or still moving, or that it is over.
#[derive(Clone, Copy)]
pub enum Reading {
    Stable(f64),
    Moving(f64),
    Over,
}

// A load cell: its rated kilograms, and its zero, what it shows without the load.
#[derive(Clone, Copy)]
pub struct Cell {
    pub rated: f64,
    pub zero: f64,
}

// A reading as the indicator sends it, and the cell that it is of.
#[derive(Clone, Copy)]
pub struct Message<'a> {
    pub bytes: &'a [u8],
    pub cell: Cell,
}

// A paired weighing as an indicator sends it: p, q, p' and q' as messages. It is no entry: what is kept is the paired weighing of
// their nets.
#[derive(Clone, Copy)]
pub struct Indicated<'a> {
    pub m: u64,
    pub p: Message<'a>,
    pub q: Message<'a>,
    pub p2: Message<'a>,
    pub q2: Message<'a>,
    pub a: i64,
    pub b: u64,
    pub n: u64,
}

#[derive(Clone, Copy)]
pub enum Entry {
    Weighing(Weighing),
    Sheet(Sheet),
    Change(Change),
    Paired(Paired),
    Seat(Seat),
}

impl From<Weighing> for Entry {
    ghost from_gives = { λ w e. e ≡ entry.Weighing w };

    fn from(w: Weighing) -> Entry {
        Entry::Weighing(w)
    }
}

impl From<Sheet> for Entry {
    ghost from_gives = { λ s e. e ≡ entry.Sheet s };

    fn from(s: Sheet) -> Entry {
        Entry::Sheet(s)
    }
}

impl From<Change> for Entry {
    ghost from_gives = { λ x e. e ≡ entry.Change x };

    fn from(x: Change) -> Entry {
        Entry::Change(x)
    }
}

impl From<Paired> for Entry {
    ghost from_gives = { λ x e. e ≡ entry.Paired x };

    fn from(x: Paired) -> Entry {
        Entry::Paired(x)
    }
}

impl From<Seat> for Entry {
    ghost from_gives = { λ f e. e ≡ entry.Seat f };

    fn from(f: Seat) -> Entry {
        Entry::Seat(f)
    }
}

// The kinds of entry, by the numbers that they have in the file.
#[derive(Clone, Copy, PartialEq, Eq)]
pub enum Kind {
    Weighing = 1,
    Sheet = 2,
    Change = 3,
    Paired = 4,
    Seat = 5,
}

// A number that stands for nothing: no kind of entry has it, or no version of the file.
#[derive(Clone, Copy)]
pub struct Unknown(pub u8);

impl TryFrom<u8> for Kind {
    type Error = Unknown;

    ghost try_from_gives = { Decodes };

    fn try_from(code: u8) -> Result<Self, Unknown> {
        match code {
            1 => Ok(Kind::Weighing),
            2 => Ok(Kind::Sheet),
            3 => Ok(Kind::Change),
            4 => Ok(Kind::Paired),
            5 => Ok(Kind::Seat),
            _ => Err(Unknown(code)),
        }
    }
}

// Why a call is refused, by the numbers of refusal.
#[derive(Clone, Copy, PartialEq, Eq)]
pub enum Refusal {
    Reading = 1,
    Distance = 2,
    NonLifting = 3,
    Range = 4,
    Rows = 5,
    Change = 6,
    NoWeighing = 7,
    NoSheet = 8,
    Full = 9,
    Empty = 10,
    ShortBuffer = 11,
    NoFile = 12,
    Unsteady = 13,
    Load = 14,
}

impl From<Refusal> for u64 {
    ghost from_gives = { λ r n. n ≡ number_of r };

    fn from(r: Refusal) -> u64 {
        r as u64
    }
}

impl fmt::Display for Refusal {
    ghost use Rattle.std.specs.Prelude.{Some};
    ghost use Rattle.paper.specs.Numbers.{refusal_text};

    ghost output = { λ r. Some (refusal_text r) };

    fn fmt<W: fmt::Write>(&self, f: &mut fmt::Formatter<W>) -> fmt::Result {
        write!(f, "refused {}", u64::from(*self))
    }
}

// The number of an answer, 0 where the call is accepted.
pub fn number<A>(answer: &Result<A, Refusal>) -> u64
    ensures { result ≡ number_in answer.now }
{
    match answer {
        Ok(_) => 0,
        Err(refusal) => u64::from(*refusal),
    }
}

// A row of the placard: the smallest and the largest front load, or blank.
pub type Row = Option<(u64, u64)>;

// What the centre-of-gravity call answers, total and moment in half grams.
#[derive(Clone, Copy)]
pub struct CentreOfGravity {
    pub total: u64,
    pub moment: i64,
    pub centre: i64,
}

// What the changes at one arm come to, in grams: their net weight, and the net of those that are non-lifting parts.
#[derive(Clone, Copy)]
pub struct Equipment {
    pub arm: i64,
    pub weight: i64,
    pub nonlifting: i64,
}

// What the placard call answers beside the buffer.
#[derive(Clone, Copy, Default)]
pub struct Placard {
    pub bytes: usize,
    pub rows: usize,
    pub blank: usize,
}
