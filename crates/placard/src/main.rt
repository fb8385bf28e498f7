#![tactic(auto)]

// Reads a record's file on standard input and prints its placard, or `refused `, the number and a line feed.
use std::io;

fn main(rt: HostRuntime) -> io::Result<()> {
    printing::placard(&rt)
}
