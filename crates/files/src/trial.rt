// A file read, and what comes of it.
use crate::written::counted;
use header::{Header, Version};
use lines::{Centre, sum, written};
use paper::{Refusal, number};
use record::Record;
use script::texts::{SPELLED, spelled};
use std::io;

// A fresh record's file.
const FRESH: [u8; 6] = [0, 0, 0, 2, Version::WRITTEN as u8, 0];

// `other` where the record's file is not s.
fn compared(rt: &impl Print, log: &Record, s: &[u8]) -> io::Result<()> {
    let mut out = [0u8; file::LONGEST];
    if written(file::write, log, &mut out) != Ok(s) {
        print!(rt; " other")?;
    }
    Ok(())
}

// The bytes that digits of sixteen spell, read into a fresh record, and whether that then has the file that it should.
pub fn tried(rt: &impl Print, digits: &[u8]) -> io::Result<()> {
    let mut room = [0u8; SPELLED];
    let s = spelled(digits, &mut room);
    let mut log = Record::fresh();
    let answer = file::read(&mut log, s);
    if let Some(version) = s.get_mut(Header::VERSION) {
        *version = Version::WRITTEN as u8;
    }
    match answer {
        Ok(()) => {
            print!(rt; " {}", Centre(log.centre_of_gravity()))?;
            compared(rt, &log, s)
        }
        Err(refusal) => {
            print!(rt; " {}", u64::from(refusal))?;
            compared(rt, &log, &FRESH)
        }
    }
}

// The number that a call answered, and the record that it left.
pub fn kept(rt: &impl Print, last: Result<(), Refusal>, log: &Record) -> io::Result<()> {
    let mut out = [0u8; file::LONGEST];
    print!(rt; " {}", number(&last))?;
    let s = counted(rt, log, &mut out)?;
    print!(rt; "{}", sum(s))
}

// The bytes that digits of sixteen spell, read into a record.
pub fn read(log: &mut Record, digits: &[u8]) -> Result<(), Refusal> {
    let mut room = [0u8; SPELLED];
    file::read(log, spelled(digits, &mut room))
}
