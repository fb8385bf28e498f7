#![tactic(auto)]

// The equipment of a stored file, found by one walk over its entries. No record is made.
ghost use Rattle.paper.specs.Refusals.{file_of};
ghost use Rattle.equipped.specs.Equipped.{Equips};

use fittings::Fittings;
use judge::Standing;
use reader::Reader;

// The equipment of a file's list, and whether the list has a weighing.
#[derive(Clone, Copy)]
pub struct Equipped {
    pub weighed: bool,
    pub fittings: Fittings,
}

// The equipment of some bytes, where they are the file of a record.
pub fn found(s: &[u8]) -> Option<Equipped>
    ensures { Equips (file_of s.now) result }
{
    let (header, rest) = header::take_header(s)?;
    let mut entries = Reader::new(rest, header.version.last_kind());
    let mut standing = Standing::new();
    let mut fittings = Fittings::new();
    for _ in 0..header.count {
        fittings.note(stored::pass(&mut entries, &mut standing)?);
    }
    if 0 < entries.left() {
        return None;
    }
    Some(Equipped {
        weighed: standing.balance.is_some(),
        fittings,
    })
}
