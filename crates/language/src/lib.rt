#![tactic(auto)]

// The logbook's language: what a line says.
ghost use Rattle.std.specs.Prelude.{◌≡◌, suc, ◌≤◌, length, get_or, drop};
ghost use Rattle.paper.specs.Numbers.{code_of};
ghost use Rattle.paper.specs.File.{entry_of};
ghost use Rattle.language.specs.Lines.{kind_named, other_words, values_from, candidate, says};

use paper::{Change, Entry, Kind, Paired, Seat, Sheet, Weighing};

// The most values that a kind has.
const FIELDS: usize = 15;

// What a line says.
#[derive(Clone, Copy)]
pub enum Line {
    Passed,
    Undo,
    Entry(Entry),
    NotUnderstood,
}

// The kind whose name begins as a line does; of one that begins with no kind's name, any kind.
#[tactic(auto, unfolding(crate::specs::Lines::kind_named))]
fn kind_of(s: &[u8]) -> Kind
    ensures { code_of result ≡ kind_named (get_or s.now 0 0) (get_or s.now 1 0) }
{
    match s {
        [b'w', ..] => Kind::Weighing,
        [b's', b'h', ..] => Kind::Sheet,
        [b's', ..] => Kind::Seat,
        [b'c', ..] => Kind::Change,
        _ => Kind::Paired,
    }
}

// The place behind a byte, or the end where there is none.
pub fn behind(s: &[u8], end: usize) -> usize
    ensures { (result ≤ length s.now) × (drop result s.now ≡ drop (suc end) s.now) }
{
    if end < s.len() { end + 1 } else { s.len() }
}

// The entry of a kind with the first of these values.
fn entry_of(kind: Kind, v: &[i64]) -> Entry
    requires { 15 ≤ length v.now }
    ensures { result ≡ entry_of (code_of kind) v.now }
{
    match kind {
        Kind::Weighing => kinds::entry_of::<Weighing>(v),
        Kind::Sheet => kinds::entry_of::<Sheet>(v),
        Kind::Change => kinds::entry_of::<Change>(v),
        Kind::Paired => kinds::entry_of::<Paired>(v),
        Kind::Seat => kinds::entry_of::<Seat>(v),
    }
}

// The numbers of the words behind the first, 0 where there are no more.
fn values_of(s: &[u8]) -> [i64; FIELDS]
    ensures { result ≡ values_from 15 (other_words s.now) }
{
    let mut v = [0; FIELDS];
    for (i, word) in s.split(|x| *x == b' ').skip(1).take(FIELDS).enumerate() {
        v[i] = numerals::number_of(word);
    }
    v
}

// The only entry whose text a line can be.
fn candidate(s: &[u8]) -> Entry
    ensures { result ≡ candidate s.now }
{
    entry_of(kind_of(s), &values_of(s))
}

// What a line says. It is an entry's where writing that entry gives the line again.
pub fn read_line(s: &[u8]) -> Line
    ensures { result ≡ says s.now }
{
    if s.is_empty() || s[0] == b'#' {
        return Line::Passed;
    }
    if s == b"undo".as_slice() {
        return Line::Undo;
    }
    let e = candidate(s);
    if s == wording::text_of(e).as_bytes() {
        Line::Entry(e)
    } else {
        Line::NotUnderstood
    }
}
