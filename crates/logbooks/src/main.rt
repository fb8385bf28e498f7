#![tactic(auto)]

// Tries logbooks: cases on standard input, and the samples, whose files are beside the program when it runs.
mod again;
mod cases;
mod samples;

use std::io;

fn main(rt: HostRuntime) -> io::Result<()> {
    cases::run(&rt)?;
    samples::run(&rt)
}
