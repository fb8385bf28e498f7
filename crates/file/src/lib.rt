#![tactic(auto)]

// The record's file: writing a record into a lent buffer, and reading one back from any bytes.
ghost use Rattle.std.specs.Prelude.{◌≡◌, map, ◌≤◌, length};
ghost use Rattle.laws.specs.Written.{written};
ghost use Rattle.paper.specs.File.{entry_bytes, file_bytes};
ghost use Rattle.paper.specs.Rows.{joined};
ghost use Rattle.paper.specs.Answers.{written_answer};
ghost use Rattle.paper.specs.Journal as journal;
ghost use Rattle.paper.specs.Refusals.{file_of};
ghost use Rattle.record.specs.Held.{held_by, answered};
ghost use Rattle.file.specs.Found.{record_in};
ghost use Rattle.file.specs.Longest.{IsLongest};

use header::Header;
use judge::Standing;
use paper::{Entry, Refusal};
use reader::Reader;
use record::Record;

// The longest file, that of 64 sheets.
pub const LONGEST: usize = 3910;

// The longest file's length, as a promise.
pub fn longest() -> usize
    ensures { IsLongest result }
{
    LONGEST
}

// How many bytes the file of some entries takes.
fn length_of(list: &[Entry]) -> usize
    requires { length list.now ≤ 64 }
    ensures { result ≡ length (file_bytes list.now) }
{
    Header::LENGTH + list.iter().map(|e| entries::length_of(*e)).sum::<usize>()
}

// The entries, one behind the other.
fn put_entries(out: &mut [u8], list: &[Entry])
    requires { length (file_bytes list.now) ≤ length out.old }
    ensures { out.new ≡ written out.old 6 (joined (map entry_bytes list.now)) }
{
    let mut at = Header::LENGTH;
    for e in list {
        at += entries::put_entry(&mut out[at..], *e);
    }
}

// Writing: 11 where the buffer is too short, and then no byte of it changes.
pub fn write(r: &Record, out: &mut [u8]) -> Result<usize, Refusal>
    ensures { (result, out.new) ≡ written_answer (held_by r.now) out.old }
{
    let now = record::replay(r);
    let list = now.log.entries();
    let length = length_of(list);
    if out.len() < length {
        return Err(Refusal::ShortBuffer);
    }
    header::put_header(out, length, list.len());
    put_entries(out, list);
    Ok(length)
}

// The record of a file; none where the bytes are no file.
fn found(s: &[u8]) -> Option<Record>
    ensures { result ≡ record_in (file_of s.now) }
{
    let (header, rest) = header::take_header(s)?;
    let mut entries = Reader::new(rest, header.version.last_kind());
    let mut standing = Standing::new();
    let mut log = Record::fresh();
    for _ in 0..header.count {
        log.push(stored::pass(&mut entries, &mut standing)?);
    }
    if 0 < entries.left() {
        return None;
    }
    Some(log)
}

// Reading back: 12 where the bytes are no file, and then the record is as it was.
pub fn read(r: &mut Record, s: &[u8]) -> Result<(), Refusal>
    ensures { (result, r.new) ≡ answered r.old (journal.read s.now) }
{
    *r = found(s).ok_or(Refusal::NoFile)?;
    Ok(())
}
