// A line of output for each case, and the placard.
use group::LINE;
use lines::{BEHIND, first, lent, split, sum, unwritten};
use paper::{Placard, number};
use script::calls::Case;
use script::texts::{between, digits, place_of};
use std::io;

// The most lines of a placard that is printed whole.
const SHORT: usize = 12;

// The most bytes that are lent.
const ROOM: usize = 9232;

// The placard, or where it is longer its first line, its last and the sum of its bytes.
fn printed(rt: &impl Print, placard: &[u8]) -> io::Result<()> {
    if placard.len() <= SHORT * LINE {
        return rt.write_all(placard);
    }
    rt.write_all(first(placard, LINE))?;
    rt.write_all(&placard[placard.len() - LINE..])?;
    println!(rt; "sum {}", sum(placard))
}

// A case, which begins with how many bytes are lent; its label stands between a space and the colon.
pub fn tried(rt: &impl Print, mut case: Case) -> io::Result<()> {
    if case.is_comment() {
        return Ok(());
    }
    let line = case.line;
    let last = case.play();
    let n = digits(line) as usize;
    let mut room = [0xAAu8; ROOM + BEHIND];
    let looked_at = lent(&mut room, n.saturating_add(BEHIND));
    let answer = plate::placard(case.log, lent(looked_at, n));
    let refused = number(&answer);
    let Placard { bytes, rows, blank } = answer.unwrap_or_default();
    let (placard, behind) = split(looked_at, bytes);
    rt.write_all(between(line, place_of(line, b' ') + 1, place_of(line, b':')))?;
    print!(rt; ": {}; {refused} {bytes} {rows} {blank}; ", number(&last))?;
    println!(rt; "{}", unwritten(behind))?;
    printed(rt, placard)
}
