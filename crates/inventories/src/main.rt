#![tactic(auto)]

// Tries the equipment call: columns of each length, every refusal, arms in any order, nets of nought, the ends of every range, and
// changes drawn by lot.
// The cases stand on standard input, a line for each, as texts by the letters of the crate `script`: how long the three columns
// are, each with a space behind, a label, a colon, and calls that go on from the record that the line before left. A line that
// begins with # is a comment.
//
// What is printed for a case is its label; the number of its last call; the number of the equipment call and how many arms
// there are; and of each column the elements that are lent and two behind them, with _ for one that stayed as it was.
mod column;
mod report;

use script::calls::run;
use std::io;

fn main(rt: HostRuntime) -> io::Result<()> {
    run(&mut rt.reader(), |case| report::tried(&rt, case))
}
