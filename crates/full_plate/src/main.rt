#![tactic(auto)]

// The program `placard`, run on a file whose sheet gives 256 rows: 9,216 bytes of placard.
use std::io;

fn main(rt: HostRuntime) -> io::Result<()> {
    printing::placard(&rt)
}
