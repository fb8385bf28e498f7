// A record's file as text, and back.
use lines::written;
use record::Record;

// The record of a file's listing, which is a logbook.
fn through_text(s: &[u8]) -> Option<Record> {
    let mut log = Record::fresh();
    file::read(&mut log, s).ok()?;
    let mut text = [0u8; listing::LONGEST];
    book::read(written(listing::show, &log, &mut text).ok()?).ok()
}

// Whether the file of that record is the same again.
pub fn same_again(s: &[u8]) -> bool {
    let Some(log) = through_text(s) else {
        return false;
    };
    let mut out = [0u8; file::LONGEST];
    written(file::write, &log, &mut out) == Ok(s)
}
