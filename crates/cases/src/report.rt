// A line of output for each case.
use lines::Centre;
use paper::number;
use script::calls::Case;
use std::io;

// A case, whose head is its label.
pub fn tried(rt: &impl Print, mut case: Case) -> io::Result<()> {
    if case.is_comment() {
        return Ok(());
    }
    let last = case.play();
    let mut before = *case.log;
    let back = before.undo();
    rt.write_all(case.head())?;
    println!(rt;
        ": {}; {}; {}; {}",
        number(&last),
        Centre(case.log.centre_of_gravity()),
        number(&back),
        Centre(before.centre_of_gravity())
    )
}
