#![tactic(auto)]

// Reads a logbook on standard input and writes its record's file on standard output. Where a line is refused or not
// understood it writes no file, and says so in a line on standard error.
use lines::written_or_empty;
use record::Record;
use std::io;

// The longest logbook.
const TEXT: usize = 65536;

fn write(rt: &impl Print, r: &Record) -> io::Result<()> {
    let mut out = [0u8; file::LONGEST];
    rt.write_all(written_or_empty(file::write, r, &mut out))
}

// The buffer has one byte more than a logbook may have, which tells a longer input.
fn main(rt: HostRuntime) -> io::Result<()> {
    let mut room = [0u8; TEXT + 1];
    let input = lines::read_full(&mut rt.reader(), &mut room)?;
    if TEXT < input.len() {
        return println!(rt.stderr(); "refused: more than {TEXT} bytes");
    }
    match book::read(input) {
        Ok(log) => write(&rt, &log),
        Err(failure) => println!(rt.stderr(); "{failure}"),
    }
}
