// A record's file, written.
use lines::{BEHIND, Centre, first, lent, sum, unwritten, written};
use paper::number;
use record::Record;
use script::texts::between;
use std::io;

// The most bytes that are lent.
const ROOM: usize = 4096;

// The centre of gravity, and the file's number and length. The answer is the file.
pub fn counted<'a>(rt: &impl Print, log: &Record, out: &'a mut [u8]) -> io::Result<&'a [u8]> {
    let answer = written(file::write, log, out);
    let refused = number(&answer);
    let s = answer.unwrap_or_default();
    print!(rt;
        " {} {refused} {} ",
        Centre(log.centre_of_gravity()),
        s.len()
    )?;
    Ok(s)
}

// The same, and the file's bytes in digits of sixteen.
pub fn shown(rt: &impl Print, log: &Record) -> io::Result<()> {
    let mut out = [0u8; file::LONGEST];
    for x in counted(rt, log, &mut out)? {
        print!(rt; "{x:02x}")?;
    }
    Ok(())
}

// Writing into n bytes of AA: number and length, the sum of the bytes, and how many behind them stayed. Where so many are not
// there to be looked at, every AA counts.
pub fn into(rt: &impl Print, log: &Record, n: usize) -> io::Result<()> {
    let mut room = [0xAAu8; ROOM];
    let answer = file::write(log, lent(&mut room, n));
    let s = first(&room, answer.unwrap_or_default());
    let behind = between(&room, s.len(), n.saturating_add(BEHIND));
    print!(rt;
        " {} {} {} {}",
        number(&answer),
        s.len(),
        sum(s),
        unwritten(behind)
    )
}
