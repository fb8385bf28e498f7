#![tactic(auto)]

// Reads a record's file on standard input and writes its listing on standard output: a logbook of its entries. A file that
// is none gets `refused 12` on standard error.
use std::io;

fn main(rt: HostRuntime) -> io::Result<()> {
    let mut out = [0u8; listing::LONGEST];
    printing::run(&rt, &rt.stderr(), &mut out, listing::show)
}
