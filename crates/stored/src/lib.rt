#![tactic(auto)]

// A stored file: what stands in it, found by one walk over its entries. No record is made.
ghost use Rattle.std.specs.Prelude.{◌+◌, List, ℕ};
ghost use Rattle.paper.specs.declared.Entry.{Entry};
ghost use Rattle.paper.specs.Refusals.{file_of};
ghost use Rattle.stored.specs.Found.{Finds};
ghost use Rattle.stored.specs.Walks.{Walked, Goes};

use judge::Standing;
use paper::{CAPACITY, Entry};
use reader::Reader;

// One step of a walk over a file: the next entry, judged against what stands; none where there is no file.
#[inline(always)]
pub fn pass(entries: &mut Reader, standing: &mut Standing) -> Option<Entry>
    ensures { (xs : List ℕ) (es : List Entry) (n : ℕ) → Walked xs es (n + 1) entries.old standing.old → Goes xs es n result entries.new standing.new }
{
    let entry = entries.next()?;
    standing.add(entry).ok()?;
    Some(entry)
}

// What the file of a record says: what stands in it, the place of the last entry and the place behind it.
#[derive(Clone, Copy)]
pub struct Contents {
    pub standing: Standing,
    pub last: Option<usize>,
    pub end: usize,
}

// What stands in some bytes, where they are the file of a record.
pub fn survey(s: &[u8]) -> Option<Contents>
    ensures { Finds (file_of s.now) result }
{
    let (header, rest) = header::take_header(s)?;
    if CAPACITY < header.count {
        return None;
    }
    let mut entries = Reader::new(rest, header.version.last_kind());
    let mut standing = Standing::new();
    let mut last = None;
    for _ in 0..header.count {
        last = Some(s.len() - entries.left());
        pass(&mut entries, &mut standing)?;
    }
    if 0 < entries.left() {
        return None;
    }
    Some(Contents {
        standing,
        last,
        end: s.len(),
    })
}
