#![tactic(auto)]

// Tries the record's calls on the worked weighings, at every bound, in every order of refusal and along the list.
// The cases stand on standard input, a line for each, as texts by the letters of the crate `script`: a label, a colon, and
// calls that go on from the record that the line before left. A line that begins with # is a comment.
//
// What is printed for a case is its label; the number of its last call; the centre of gravity of the record that it
// leaves, as number, total, moment and centre; the number of taking back from there; and the centre of gravity after
// that.
mod report;

use script::calls::run;
use std::io;

fn main(rt: HostRuntime) -> io::Result<()> {
    run(&mut rt.reader(), |case| report::tried(&rt, case))
}
