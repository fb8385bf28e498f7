#![tactic(auto)]

// Reads a record's file on standard input and prints its schedule of equipment, or `refused `, the number and a line feed.
use std::io;

fn main(rt: HostRuntime) -> io::Result<()> {
    let mut out = [0u8; schedule::LONGEST];
    printing::run(&rt, &rt, &mut out, inventory::show)
}
