#![tactic(auto)]

// What the programs `placard`, `show` and `equipment` do: a record's file on standard input, what a call writes of the record on
// standard output; or `refused `, the number and a line feed. The programs that are run on the longest file and on the longest
// placard do the same as `placard`.
use lines::written;
use paper::Refusal;
use record::Record;
use std::io;

// What a call writes of a file's record at the front of a buffer, or why it is refused.
fn text<'a, F: FnOnce(&Record, &mut [u8]) -> Result<usize, Refusal>>(
    call: F,
    s: &[u8],
    out: &'a mut [u8],
) -> Result<&'a [u8], Refusal>
    requires { F.IsAlwaysCallable call }
{
    let mut log = Record::fresh();
    file::read(&mut log, s)?;
    written(call, &log, out)
}

// A call that writes at most as much as the buffer holds, and where a refusal is printed. The input has room for one byte more
// than a file may have, so that of a longer one it has what is no file either.
pub fn run<F: FnOnce(&Record, &mut [u8]) -> Result<usize, Refusal>>(
    rt: &(impl Input + Print),
    refusals: &impl Print,
    out: &mut [u8],
    call: F,
) -> io::Result<()>
    requires { F.IsAlwaysCallable call }
{
    let mut room = [0u8; file::LONGEST + 1];
    let input = lines::read_full(&mut rt.reader(), &mut room)?;
    match text(call, input, out) {
        Ok(text) => rt.write_all(text),
        Err(refusal) => println!(refusals; "{refusal}"),
    }
}

// The placard of a file.
pub fn placard(rt: &(impl Input + Print)) -> io::Result<()> {
    let mut out = [0u8; plate::LONGEST];
    run(rt, rt, &mut out, |log, out| {
        Ok(plate::placard(log, out)?.bytes)
    })
}
