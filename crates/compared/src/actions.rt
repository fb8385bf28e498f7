// One line of the cases: an action on the record that is lent in a part of a buffer, and its answer.
use crate::indicated::indicated;
use language::Line;
use lines::{lent, split, sum};
use nodhulika::{
    ANSWER, nodhulika_centre, nodhulika_change, nodhulika_check, nodhulika_equipment,
    nodhulika_fresh, nodhulika_placard, nodhulika_read, nodhulika_seat, nodhulika_sheet,
    nodhulika_undo, nodhulika_weigh, nodhulika_weigh_paired,
};
use numerals::number_of;
use paper::Entry;
use script::texts::{SPELLED, digits, parted, spelled, text};
use std::io;

// The longest buffer of a record.
const ROOM: usize = 4096;

// The longest placard's buffer that a case gives.
const PLACARD: usize = 9400;

// The longest column that a case gives.
const COLUMN: usize = 70;

// What each element of a column is before it is filled.
const UNFILLED: i64 = -1_000_000_007;

// An answer behind the others of its case.
fn answer(rt: &impl Print, n: u64) -> io::Result<()> {
    print!(rt; " {n}")
}

// A weighing, plain or paired, a data sheet, a change or a seat entry.
fn enter(buffer: &mut [u8], e: Entry) -> u64 {
    match e {
        Entry::Weighing(w) => nodhulika_weigh(buffer, w.m, w.p, w.q, w.a, w.b, w.n),
        Entry::Sheet(s) => nodhulika_sheet(
            buffer,
            s.fwd,
            s.aft,
            s.dry,
            s.wet,
            s.nlp,
            s.front.arm,
            s.least,
            s.front.most,
            s.front.step,
            s.rear.arm,
            s.rear.most,
            s.rear.step,
            s.water.arm,
            s.water.most,
            s.water.step,
        ),
        Entry::Change(x) => nodhulika_change(buffer, x.c, x.arm, x.flag),
        Entry::Paired(x) => {
            nodhulika_weigh_paired(buffer, x.m, x.p, x.q, x.p2, x.q2, x.a, x.b, x.n)
        }
        Entry::Seat(f) => nodhulika_seat(buffer, f.lower, f.higher),
    }
}

// `Check`: the number, and the sum of the whole buffer.
fn check(rt: &impl Print, record: &[u8]) -> io::Result<()> {
    print!(rt; " {} {}", nodhulika_check(record), sum(record))
}

// `Centre`: the number, and total, moment and centre where it is 0.
fn centre(rt: &impl Print, record: &[u8]) -> io::Result<()> {
    let mut numbers = [0u8; ANSWER];
    let n = nodhulika_centre(record, &mut numbers);
    answer(rt, n)?;
    if let (0, ([total, moment, centre], _)) = (n, numbers.as_chunks::<8>()) {
        let total = u64::from_be_bytes(*total);
        let moment = i64::from_be_bytes(*moment);
        let centre = i64::from_be_bytes(*centre);
        print!(rt; " {total} {moment} {centre}")?;
    }
    Ok(())
}

// The first elements of a column, by how many a text says.
fn column<'a>(elements: &'a mut [i64], size: &str) -> &'a mut [i64] {
    let size = (digits(size.as_bytes()) as usize).min(elements.len());
    &mut elements[..size]
}

// A sum that goes on over a column, in which each place counts.
fn summed(n: u64, column: &[i64]) -> u64 {
    column.iter().fold(n, |n: u64, x| {
        n % 1_000_003 * 257 + x.rem_euclid(1_000_003).cast_unsigned()
    })
}

// `Equipment A B C`: the number, how many arms there are where it is 0, and the sum of the three columns.
fn equipment(rt: &impl Print, sizes: &str, record: &[u8]) -> io::Result<()> {
    let (a, rest) = parted(sizes, ' ');
    let (b, c) = parted(rest, ' ');
    let unfilled = [UNFILLED; COLUMN];
    let (mut arms, mut weights, mut nonlifting) = (unfilled, unfilled, unfilled);
    let arms = column(&mut arms, a);
    let weights = column(&mut weights, b);
    let nonlifting = column(&mut nonlifting, c);
    let mut count = 0;
    let n = nodhulika_equipment(record, arms, weights, nonlifting, &mut count);
    answer(rt, n)?;
    if n == 0 {
        answer(rt, count)?;
    }
    answer(rt, summed(summed(summed(0, arms), weights), nonlifting))
}

// `Placard N`, which ends a case: the number, bytes, rows and blank rows where it is 0, and the sum of the whole placard's
// buffer.
fn placard(rt: &impl Print, size: usize, record: &[u8]) -> io::Result<()> {
    let mut plate = [0xAAu8; PLACARD];
    let mut counts = [0u8; ANSWER];
    let out = lent(&mut plate, size);
    let n = nodhulika_placard(record, out, &mut counts);
    answer(rt, n)?;
    if n == 0 {
        for count in counts.as_chunks::<8>().0 {
            answer(rt, u64::from_be_bytes(*count))?;
        }
    }
    println!(rt; " {}", sum(out))
}

// `Read HEX`.
fn read(digits: &[u8], record: &mut [u8]) -> u64 {
    let mut file = [0u8; SPELLED];
    nodhulika_read(record, spelled(digits, &mut file))
}

// What stands behind the first n bytes of a line.
fn behind(line: &[u8], n: usize) -> &[u8] {
    split(line, n).1
}

// The number that stands there; 0 for one below it.
fn number(line: &[u8], n: usize) -> usize {
    number_of(behind(line, n)).max(0).cast_unsigned() as usize
}

// A call, as a line of a logbook.
fn call(rt: &impl Print, line: &[u8], record: &mut [u8]) -> io::Result<()> {
    match language::read_line(line) {
        Line::Entry(e) => answer(rt, enter(record, e)),
        Line::Undo => answer(rt, nodhulika_undo(record)),
        Line::Passed => print!(rt; " passed"),
        Line::NotUnderstood => print!(rt; " not understood"),
    }
}

// A case: the buffer, and how many of its first bytes the record is lent.
#[derive(Drop)]
pub struct Case {
    buffer: [u8; ROOM],
    room: usize,
}

impl Case {
    pub fn new() -> Case {
        Case {
            buffer: [0; ROOM],
            room: 0,
        }
    }

    // `Fresh N`: a new case, in a buffer whose every byte is AA.
    fn fresh(&mut self, rt: &impl Print, room: usize) -> io::Result<()> {
        self.room = room;
        self.buffer = [0xAA; ROOM];
        let n = nodhulika_fresh(lent(&mut self.buffer, self.room));
        print!(rt; "{n}")
    }

    // The action of a line by its first letters, and by its first word where that is `Equipment` or `Indicated`. `Lent HEX`
    // puts these bytes at the front of the buffer, as they are. A line of less than two bytes is passed over.
    pub fn act(&mut self, rt: &impl Print, line: &[u8]) -> io::Result<()> {
        let record = lent(&mut self.buffer, self.room);
        match line {
            [] | [_] => Ok(()),
            [b'F', ..] => self.fresh(rt, number(line, 6)),
            [b'R', ..] => answer(rt, read(behind(line, 5), record)),
            [b'L', ..] => {
                spelled(behind(line, 5), record);
                Ok(())
            }
            [b'P', ..] => placard(rt, number(line, 8), record),
            [b'C', b'h', ..] => check(rt, record),
            [b'C', ..] => centre(rt, record),
            _ => match parted(text(line).unwrap_or_default(), ' ') {
                ("Equipment", sizes) => equipment(rt, sizes, record),
                ("Indicated", rest) => answer(rt, indicated(rest, record)),
                _ => call(rt, line, record),
            },
        }
    }
}
