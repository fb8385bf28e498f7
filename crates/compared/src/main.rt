#![tactic(auto)]

// Runs cases over the library for C and Rust. They stand on standard input, a line for each action; the answers of a case are
// a line of output. What it must print comes from the independent implementation in rust/judge, which wrote the cases too.
mod actions;
mod indicated;

use actions::Case;
use lines::each_block;
use std::io;

// The cases come in blocks of this many bytes, each of whole cases.
const BLOCK: usize = 65536;

const BLOCKS: usize = 32;

// The lines in turn, over one buffer of which each case lends a part.
fn each(rt: &impl Print, block: &[u8]) -> io::Result<()> {
    let mut case = Case::new();
    for line in block.split_inclusive(|x| *x == b'\n') {
        case.act(rt, line.strip_suffix(b"\n").unwrap_or(line))?;
    }
    Ok(())
}

fn main(rt: HostRuntime) -> io::Result<()> {
    let mut buffer = [0u8; BLOCK];
    each_block(&mut rt.reader(), &mut buffer, BLOCKS, |block| {
        each(&rt, block)
    })
}
