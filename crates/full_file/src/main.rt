#![tactic(auto)]

// The program `placard`, run on the longest file: 64 sheets and no weighing, 3,910 bytes.
use std::io;

fn main(rt: HostRuntime) -> io::Result<()> {
    printing::placard(&rt)
}
