#![tactic(auto)]

// Tries the indicator's call: floats at and beside ties and bounds, of each exponent that has grams and of some below, messages of
// each state and of other lengths, each number of refusal at each reading, and what stands in the record afterwards.
// The cases stand on standard input, a line for each, as texts by the letters of the crate `script`: a label, a colon, and
// calls that go on from the record that the line before left. A line that begins with # is a comment.
//
// What is printed for a case is its label; the number of its last call; the paired weighing that stands last in the record, as
// m, p, q, p', q', a, b and n, or a hyphen where none does; and the centre of gravity, as number, total, moment and centre.
mod report;

use script::calls::run;
use std::io;

fn main(rt: HostRuntime) -> io::Result<()> {
    run(&mut rt.reader(), |case| report::tried(&rt, case))
}
