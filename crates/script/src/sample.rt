// Entries by the letters of their fields.
use crate::texts::{behind_last, number};
use paper::{Change, Paired, Seat, Sheet, Station, Weighing};

// An entry as a text, each field behind its letter, with a space between two: the fields of an ordinary one, but for those of
// another text.
#[derive(Drop)]
pub struct Fields<'a> {
    pub ordinary: &'a [u8],
    pub other: &'a [u8],
}

impl Fields<'_> {
    // The number of a field: behind the last that has its letter, or 0 where none has.
    pub fn number(&self, letter: u8) -> u64 {
        let ordinary = behind_last(self.ordinary, letter);
        behind_last(self.other, letter)
            .or(ordinary)
            .map_or(0, number)
    }

    pub fn signed(&self, letter: u8) -> i64 {
        self.number(letter).cast_signed()
    }

    fn station(&self, arm: u8, most: u8, step: u8) -> Station {
        Station {
            arm: self.signed(arm),
            most: self.number(most),
            step: self.number(step),
        }
    }

    // A weighing by the paper's letters, m p q a b n.
    pub fn weighing(&self) -> Weighing {
        Weighing {
            m: self.number(b'm'),
            p: self.number(b'p'),
            q: self.number(b'q'),
            a: self.signed(b'a'),
            b: self.number(b'b'),
            n: self.number(b'n'),
        }
    }

    // A paired weighing by the paper's letters, m p q a b n, and P and Q for p' and q'.
    pub fn paired(&self) -> Paired {
        Paired {
            m: self.number(b'm'),
            p: self.number(b'p'),
            q: self.number(b'q'),
            p2: self.number(b'P'),
            q2: self.number(b'Q'),
            a: self.signed(b'a'),
            b: self.number(b'b'),
            n: self.number(b'n'),
        }
    }

    // A sheet by F FWD, A AFT, D DRY, W WET, N NLP and l the least load; front seat, rear seat and water tank have the
    // arms a, b, c, the greatest loads m, n, o and the steps s, t, u.
    pub fn sheet(&self) -> Sheet {
        Sheet {
            fwd: self.signed(b'F'),
            aft: self.signed(b'A'),
            dry: self.number(b'D'),
            wet: self.number(b'W'),
            nlp: self.number(b'N'),
            front: self.station(b'a', b'm', b's'),
            least: self.number(b'l'),
            rear: self.station(b'b', b'n', b't'),
            water: self.station(b'c', b'o', b'u'),
        }
    }

    // A change: c, arm and flag.
    pub fn change(&self) -> Change {
        Change {
            c: self.signed(b'c'),
            arm: self.signed(b'a'),
            flag: self.number(b'f'),
        }
    }

    // A seat: its ends, l the lower and h the higher.
    pub fn seat(&self) -> Seat {
        Seat {
            lower: self.signed(b'l'),
            higher: self.signed(b'h'),
        }
    }
}
