// A line of output for each case.
use lines::Centre;
use paper::{Entry, Paired, number};
use record::Record;
use script::calls::Case;
use std::io;

// The paired weighing that stands last.
fn last(rt: &impl Print, log: &Record) -> io::Result<()> {
    match log.entries().last() {
        Some(
            Entry::Paired(
                Paired {
                    m,
                    p,
                    q,
                    p2,
                    q2,
                    a,
                    b,
                    n,
                },
            ),
        ) => print!(rt; "{m} {p} {q} {p2} {q2} {a} {b} {n}"),
        _ => print!(rt; "-"),
    }
}

// A case, whose head is its label.
pub fn tried(rt: &impl Print, mut case: Case) -> io::Result<()> {
    if case.is_comment() {
        return Ok(());
    }
    let answer = case.play();
    rt.write_all(case.head())?;
    print!(rt; ": {}; ", number(&answer))?;
    last(rt, case.log)?;
    println!(rt; "; {}", Centre(case.log.centre_of_gravity()))
}
