#![tactic(auto)]

// The logbook: a text whose lines, in turn, are calls on a fresh record.
ghost use Rattle.std.specs.Prelude.{◌≡◌};
ghost use Rattle.book.specs.Books.{book_of, reading_of};

use judge::Standing;
use language::Line;
use paper::Refusal;
use record::Record;
use std::fmt;

// Why a logbook is no record: the line with this number is refused, or not understood.
#[derive(Clone, Copy)]
pub enum Failure {
    Refused(usize, Refusal),
    NotUnderstood(usize),
}

impl fmt::Display for Failure {
    ghost use Rattle.std.specs.Prelude.{Some};
    ghost use Rattle.book.specs.Failures.{failure_text};

    ghost output = { λ x. Some (failure_text x) };

    fn fmt<W: fmt::Write>(&self, f: &mut fmt::Formatter<W>) -> fmt::Result {
        match self {
            Failure::Refused(line, why) => write!(f, "line {line}: {why}"),
            Failure::NotUnderstood(line) => write!(f, "line {line}: not understood"),
        }
    }
}

// A logbook from its first line to its last. The record stays here: an accepted entry is stored in place.
pub fn read(s: &[u8]) -> Result<Record, Failure>
    ensures { result ≡ reading_of (book_of s.now) }
{
    let mut log = Record::fresh();
    let mut standing = Standing::new();
    for (i, text) in s.split(|x| *x == b'\n').enumerate() {
        let line = i + 1;
        match language::read_line(text) {
            Line::Passed => {}
            Line::NotUnderstood => return Err(Failure::NotUnderstood(line)),
            Line::Undo => {
                log.undo().map_err(|why| Failure::Refused(line, why))?;
                standing = record::replay(&log).standing;
            }
            Line::Entry(e) => {
                standing.add(e).map_err(|why| Failure::Refused(line, why))?;
                log.push(e);
            }
        }
    }
    Ok(log)
}
