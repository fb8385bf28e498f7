#![tactic(auto)]

// The header of a record's file: its length, its version, and the kinds of entry that a version has.
ghost use Rattle.std.specs.Prelude.{◌≡◌, ◌-◌, ◌≤◌, length};
ghost use Rattle.laws.specs.Written.{written};
ghost use Rattle.paper.specs.Numbers.{code_of};
ghost use Rattle.paper.specs.File.{last_kind};
ghost use Rattle.header.specs.Versions.{number_of, Decodes};
ghost use Rattle.header.specs.Header.{header_of, TakesHeader};

use paper::{Kind, Unknown};

// The versions of a file.
#[derive(Clone, Copy)]
pub enum Version {
    First = 1,
    Second = 2,
}

impl Version {
    // The version that is written. The first one is still read.
    pub const WRITTEN: Version = Version::Second;

    // The last kind of entry that it has: paired weighings and seats came with the second.
    pub fn last_kind(self) -> Kind
        ensures { code_of result ≡ last_kind (number_of self) }
    {
        match self {
            Version::First => Kind::Change,
            Version::Second => Kind::Seat,
        }
    }
}

impl TryFrom<u8> for Version {
    type Error = Unknown;

    ghost try_from_gives = { Decodes };

    fn try_from(number: u8) -> Result<Self, Unknown> {
        match number {
            1 => Ok(Version::First),
            2 => Ok(Version::Second),
            _ => Err(Unknown(number)),
        }
    }
}

// What a file says in front of its entries, beside its length.
#[derive(Clone, Copy)]
pub struct Header {
    pub version: Version,
    pub count: usize,
}

impl Header {
    // The length, the version and the count of entries come first.
    pub const LENGTH: usize = 6;

    // The length takes so many bytes, and the version stands behind it.
    pub const VERSION: usize = 4;
}

// The header of a file that ends at `end`: the length of all that follows it, the version, and the count of entries.
pub fn put_header(out: &mut [u8], end: usize, count: usize)
    requires { 6 ≤ length out.old }
    ensures { out.new ≡ written out.old 0 (header_of (end - 4) count) }
{
    words::put_number(
        &mut out[..Header::VERSION],
        end.saturating_sub(Header::VERSION) as u64,
    );
    out[Header::VERSION] = Version::WRITTEN as u8;
    words::put_number(&mut out[Header::VERSION + 1..Header::LENGTH], count as u64);
}

// The header that some bytes begin with, and what stands behind it; none where the length or the version is not right.
pub fn take_header(s: &[u8]) -> Option<(Header, &[u8])>
    ensures { TakesHeader s.now result }
{
    let (length, body) = s.split_first_chunk::<4>()?;
    let [version, count, entries @ ..] = body else {
        return None;
    };
    if words::number_of(*length) as usize != body.len() {
        return None;
    }
    let header = Header {
        version: Version::try_from(*version).ok()?,
        count: usize::from(*count),
    };
    Some((header, entries))
}
