#![tactic(auto)]

// Tries the record's file: the worked cases, every byte and every number of a short file altered, files cut off and
// lengthened, entries judged in turn, 64 entries, records that files are read into, and buffers of each size.
//
// The cases stand on standard input, a line for each: a letter and what it takes, a space, a label, a colon, and calls by
// the letters of the crate `script`, which go on from the record that the line before left. What is printed for a case is
// its label and an answer.
//   tHEX reads these bytes into a fresh record. The answer is the number where that is not 0, and else the centre of
//        gravity of the record read, as number, total, moment and centre; `other` behind it says that the record has
//        another file than it should: the one that was read, in the version that is written, or that of a fresh record.
//   rHEX reads them into the record. The answer is the number; the centre of gravity of the record as left; and the
//        number, length and sum of its file.
//   c    makes the calls, and answers as r does.
//   w    makes them, and answers the centre of gravity, and the file's number, length and bytes.
//   iN   makes them, and writes the file into N bytes of AA. The answer is the number, the length, the sum of the bytes
//        written, and how many bytes behind them are AA still, up to 16 behind the N.
mod cases;
mod trial;
mod written;

use lines::each_block;
use script::calls::each_case;
use std::io;

// The cases come in blocks of this many bytes, filled up with line feeds. Each begins with a fresh record.
const BLOCK: usize = 16384;

const BLOCKS: usize = 25;

fn main(rt: HostRuntime) -> io::Result<()> {
    let mut buffer = [0u8; BLOCK];
    each_block(&mut rt.reader(), &mut buffer, BLOCKS, |block| {
        each_case(block, |case| cases::tried(&rt, case))
    })
}
