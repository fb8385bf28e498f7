#![tactic(auto)]

// The program `placard`, run on a file with one byte more than the longest has.
use std::io;

fn main(rt: HostRuntime) -> io::Result<()> {
    printing::placard(&rt)
}
