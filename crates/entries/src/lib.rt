#![tactic(auto)]

// One entry's bytes: written at the front of a slice, and taken off it.
ghost use Rattle.std.specs.Prelude.{◌≡◌, ◌∷◌, ◌+◌, ◌≤◌, length};
ghost use Rattle.laws.specs.Written.{written};
ghost use Rattle.paper.specs.Numbers.{code_of};
ghost use Rattle.paper.specs.File.{values_of, fields_bytes, entry_bytes, take_entry};
ghost use Rattle.format.specs.Rows.{fields_at};
ghost use Rattle.entries.specs.Taking.{Takes, take_kind};

use kinds::{Stored, entry_from};
use paper::{Change, Entry, Kind, Paired, Seat, Sheet, Weighing};

// A kind, and behind it the fields of an entry, at the front of a slice. The answer is how many bytes they take.
fn put_stored<T: Stored>(out: &mut [u8], x: T) -> usize
    requires { 1 + T.LENGTH ≤ length out.old }
    ensures { (result ≡ 1 + T.LENGTH) × (out.new ≡ written out.old 0 (code_of T.KIND ∷ fields_bytes (fields_at (code_of T.KIND)) (values_of (T.entry x)))) }
{
    out[0] = T::KIND as u8;
    x.put(&mut out[1..]);
    1 + T::LENGTH
}

// An entry, at the front of a slice: its kind, and its fields. The answer is how many bytes it takes.
pub fn put_entry(out: &mut [u8], e: Entry) -> usize
    requires { length (entry_bytes e) ≤ length out.old }
    ensures { (result ≡ length (entry_bytes e)) × (out.new ≡ written out.old 0 (entry_bytes e)) }
{
    match e {
        Entry::Weighing(w) => put_stored(out, w),
        Entry::Sheet(s) => put_stored(out, s),
        Entry::Change(x) => put_stored(out, x),
        Entry::Paired(x) => put_stored(out, x),
        Entry::Seat(f) => put_stored(out, f),
    }
}

// How many bytes an entry takes.
pub fn length_of(e: Entry) -> usize
    ensures { result ≡ length (entry_bytes e) }
{
    match e {
        Entry::Weighing(_) => 1 + Weighing::LENGTH,
        Entry::Sheet(_) => 1 + Sheet::LENGTH,
        Entry::Change(_) => 1 + Change::LENGTH,
        Entry::Paired(_) => 1 + Paired::LENGTH,
        Entry::Seat(_) => 1 + Seat::LENGTH,
    }
}

// The fields of a kind of entry, taken off the front of what stands behind the kind: `s` is then what is left. None where there
// are too few, and then `s` stays.
#[inline(always)]
fn take_stored<'a, T: Stored>(behind: &'a [u8], s: &mut &'a [u8]) -> Option<Entry>
    ensures { Takes (take_kind (code_of T.KIND) behind.now) s.old result s.new }
{
    let (fields, rest) = behind.split_at_checked(T::LENGTH)?;
    *s = rest;
    Some(entry_from::<T>(fields))
}

// An entry, taken off the front of some bytes; none where they begin with no entry, and then they stay.
#[inline(always)]
pub fn take_entry(s: &mut &[u8]) -> Option<Entry>
    ensures { Takes (take_entry s.old.now) s.old result s.new }
{
    let [code, fields @ ..] = *s else {
        return None;
    };
    match Kind::try_from(*code).ok()? {
        Kind::Weighing => take_stored::<Weighing>(fields, s),
        Kind::Sheet => take_stored::<Sheet>(fields, s),
        Kind::Change => take_stored::<Change>(fields, s),
        Kind::Paired => take_stored::<Paired>(fields, s),
        Kind::Seat => take_stored::<Seat>(fields, s),
    }
}
