#![tactic(auto)]

// The reader that walks the entries of a stored file: a struct over the bytes that are still to be read. `entry_at`, whose
// parameters are plain, is for one entry alone.
ghost use Rattle.std.specs.Prelude.{◌≡◌, length, drop};
ghost use Rattle.reader.specs.Reading.{unread, last_of, walk_at};

use paper::{Entry, Kind};

// The bytes that are still to be read, and the last kind of entry that the version of their file has.
#[derive(Clone, Copy)]
pub struct Reader<'a> {
    rest: &'a [u8],
    kinds: Kind,
}

impl<'a> Reader<'a> {
    // Over some bytes, at the first of them.
    pub fn new(rest: &'a [u8], kinds: Kind) -> Reader<'a>
        ensures { (unread result ≡ rest.entry) × (last_of result ≡ kinds) }
    {
        Reader { rest, kinds }
    }

    // Over what stands behind the first n bytes of those that are still to be read; over none where there are fewer.
    pub fn moved(self, n: usize) -> Reader<'a>
        ensures { ((unread result).now ≡ drop n (unread self.entry).now) × (last_of result ≡ last_of self.entry) }
    {
        Reader {
            rest: &self.rest[n.min(self.rest.len())..],
            kinds: self.kinds,
        }
    }

    // How many bytes are still to be read.
    pub fn left(&self) -> usize
        ensures { result ≡ length (unread self.now).now }
    {
        self.rest.len()
    }
}

impl<'a> Iterator for Reader<'a> {
    ghost use Rattle.reader.specs.Reading.{GivesEntry};

    type Item = Entry;

    ghost next_gives = { GivesEntry };

    // The entry that the bytes begin with; none where they begin with no entry that the version has.
    #[inline(always)]
    fn next(&mut self) -> Option<Entry> {
        let [code, ..] = self.rest else {
            return None;
        };
        if *code > self.kinds as u8 {
            return None;
        }
        entries::take_entry(&mut self.rest)
    }
}

// The entry at a place of some bytes, of whatever kind, and the place behind it; none where there is none.
pub fn entry_at(s: &[u8], at: usize) -> Option<(Entry, usize)>
    ensures { result ≡ walk_at s.now at }
{
    let mut reader = Reader::new(s, Kind::Seat).moved(at);
    let entry = reader.next()?;
    Some((entry, s.len() - reader.left()))
}
