// The cases on standard input, a tilde behind each. A line for each: how it ends; or how many bytes its file and its listing
// have, with their sums, and `again` where the file comes back through its text. The listing follows where it is short.
use crate::again::same_again;
use lines::{each_block, sum, written_or_empty};
use record::Record;
use std::io;

// The cases come in blocks of this many bytes, each of whole cases.
const BLOCK: usize = 16384;

const BLOCKS: usize = 28;

// The longest listing that is printed.
const SHORT: usize = 160;

fn listed(rt: &impl Print, log: &Record) -> io::Result<()> {
    let mut out = [0u8; listing::LONGEST];
    let text = written_or_empty(listing::show, log, &mut out);
    println!(rt; " text {} {}", text.len(), sum(text))?;
    if text.len() <= SHORT {
        rt.write_all(text)?;
    }
    Ok(())
}

fn whole(rt: &impl Print, log: &Record) -> io::Result<()> {
    let mut out = [0u8; file::LONGEST];
    let s = written_or_empty(file::write, log, &mut out);
    print!(rt; "file {} {}", s.len(), sum(s))?;
    if same_again(s) {
        print!(rt; " again")?;
    }
    listed(rt, log)
}

fn case(rt: &impl Print, text: &[u8]) -> io::Result<()> {
    match book::read(text) {
        Ok(log) => whole(rt, &log),
        Err(failure) => println!(rt; "{failure}"),
    }
}

fn each(rt: &impl Print, block: &[u8]) -> io::Result<()> {
    for text in block.split_inclusive(|x| *x == b'~') {
        case(rt, text.strip_suffix(b"~").unwrap_or(text))?;
    }
    Ok(())
}

pub fn run(rt: &(impl Input + Print)) -> io::Result<()> {
    let mut buffer = [0u8; BLOCK];
    each_block(&mut rt.reader(), &mut buffer, BLOCKS, |block| {
        each(rt, block)
    })
}
