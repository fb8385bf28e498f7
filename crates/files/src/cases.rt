// A line of output for each case.
use crate::{trial, written};
use script::calls::Case;
use script::texts::{between, digits, place_of};
use std::io;

// What a case asks, by its letter and what stands behind that. Any other letter writes the file, as i does.
fn done(rt: &impl Print, mut case: Case, letter: u8, taken: &[u8]) -> io::Result<()> {
    match letter {
        b't' => trial::tried(rt, taken),
        b'r' => {
            let answer = trial::read(case.log, taken);
            trial::kept(rt, answer, case.log)
        }
        b'c' => {
            let last = case.play();
            trial::kept(rt, last, case.log)
        }
        b'w' => {
            let _ = case.play();
            written::shown(rt, case.log)
        }
        _ => {
            let _ = case.play();
            written::into(rt, case.log, digits(taken) as usize)
        }
    }
}

// A case, whose label stands between a space and the colon, and is printed with the colon.
pub fn tried(rt: &impl Print, case: Case) -> io::Result<()> {
    let line = case.line;
    let [letter, _, ..] = line else {
        return Ok(());
    };
    let space = place_of(line, b' ');
    let behind = place_of(line, b':') + 1;
    rt.write_all(between(line, space + 1, behind))?;
    done(rt, case, *letter, between(line, 1, space))?;
    println!(rt)
}
