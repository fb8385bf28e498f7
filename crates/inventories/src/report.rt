// A line of output for each case.
use crate::column::Column;
use lines::split;
use paper::number;
use script::calls::Case;
use script::texts::{digits, place_of};
use std::io;

// The column whose length a text begins with, and what stands behind that.
fn column(text: &[u8]) -> (Column, &[u8]) {
    let behind = place_of(text, b' ') + 1;
    (Column::new(digits(text) as usize), split(text, behind).1)
}

// A case, whose head is how long the columns are, and its label.
pub fn tried(rt: &impl Print, mut case: Case) -> io::Result<()> {
    if case.is_comment() {
        return Ok(());
    }
    let last = case.play();
    let (mut arms, rest) = column(case.head());
    let (mut weights, rest) = column(rest);
    let (mut nonlifting, label) = column(rest);
    let answer = inventory::equipment(case.log, arms.lent(), weights.lent(), nonlifting.lent());
    let refused = number(&answer);
    let count = answer.unwrap_or_default();
    rt.write_all(label)?;
    print!(rt; ": {}; {refused} {count}", number(&last))?;
    for column in [&arms, &weights, &nonlifting] {
        column.printed(rt)?;
    }
    println!(rt)
}
