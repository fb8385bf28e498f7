// Files that are read.
use header::{Header, Version};
use lines::written;
use paper::Refusal;
use record::Record;

// The file of case G.
pub const G: [u8; 89] = *b"\x00\x00\x00\x55\x02\x02\
    \x01\x01\x00\x04\x65\x00\x00\x00\x00\x00\x00\x00\xF7\x66\x00\x07\xA1\x20\x00\x02\x22\xE0\
    \x02\x00\x00\x61\xA8\x00\x00\xA6\x04\x00\x05\xCC\x60\x00\x06\xDD\xD0\x00\x03\xA9\x80\
    \xFF\xFF\x46\x74\x00\x00\xD6\xD8\x00\x01\xAD\xB0\x00\x00\x03\xE8\
    \x00\x00\x00\x00\x00\x00\x00\x00\x00\x00\x00\x01\x00\x00\x75\x30\x00\x01\x86\xA0\x00\x00\xC3\x50";

// The record's own file, read into a fresh record.
pub fn read_again(log: &mut Record) -> Result<(), Refusal> {
    let mut out = [0u8; file::LONGEST];
    let s = written(file::write, log, &mut out)?;
    *log = Record::fresh();
    file::read(log, s)
}

// G's file in version 1.
pub fn first_version() -> [u8; 89] {
    let mut s = G;
    s[Header::VERSION] = Version::First as u8;
    s
}
