#![tactic(auto)]

// Tries the placard call: the worked cases, document 000's gliders, buffers of each size, every refusal, lists of
// calls, limits met and missed, the ends of every range, and gliders drawn by lot.
// The cases stand on standard input, a line for each, as texts by the letters of the crate `script`: how many bytes are
// lent, a space, a label, a colon, and calls that go on from the record that the line before left. A line that begins
// with # is a comment.
//
// What is printed for a case is its label; the number of its last call; the placard's number, bytes, rows and blank rows;
// and how many bytes stayed as they were lent, behind the placard or, where it is refused, all, with 16 behind the lent
// ones. Then comes the placard: its lines, or of more than twelve the first, the last and the sum of the bytes.
mod report;

use script::calls::run;
use std::io;

fn main(rt: HostRuntime) -> io::Result<()> {
    run(&mut rt.reader(), |case| report::tried(&rt, case))
}
