#![tactic(auto)]

// Each kind of entry as the file has it: read from its fields, and put as their bytes.
ghost use Rattle.std.specs.Prelude.{◌≡◌, List, ℕ, ◌≤◌, ℤ, length};
ghost use Rattle.laws.specs.Written.{written};
ghost use Rattle.paper.specs.declared.Entry.{Entry};
ghost use Rattle.paper.specs.declared.Entry.TheVariants as entry;
ghost use Rattle.paper.specs.declared.Kind.{Kind};
ghost use Rattle.paper.specs.declared.Kind.TheVariants as kind;
ghost use Rattle.paper.specs.Numbers.{code_of};
ghost use Rattle.paper.specs.File.{bytes_of, complement, values_of, fields_bytes, entry_of};
ghost use Rattle.format.specs.Fields.{widths, total};
ghost use Rattle.format.specs.Rows.{fields_at};
ghost use Rattle.kinds.specs.Values.{values_from, sizes, given_values, total_weighing, total_sheet, total_change, total_paired, total_seat, count_weighing, count_sheet, count_change, count_paired, count_seat, shown_weighing, shown_sheet, shown_change, shown_paired, shown_seat};

mod source;

use paper::{Change, Entry, Kind, Paired, Seat, Sheet, Station, Weighing};
use source::{Bytes, Source, Values, station};
use words::{put_number, word_of};

// A kind of entry: how many bytes its fields take, and the entry that they make.
pub trait Stored {
    ghost entry: { Self → Entry };

    ghost KIND: { Kind };

    const KIND: Kind;

    ghost count: { ℕ };

    ghost LENGTH: { ℕ };

    const LENGTH: usize;

    // The entry that the next fields make.
    fn read<S: Source>(from: &mut S) -> Entry
        requires { sizes S.size (fields_at (code_of KIND)) ≤ S.left from.old }
        ensures { result ≡ entry_of (code_of KIND) (S.given from.old (fields_at (code_of KIND))) };

    // Its fields, one behind the other, at the front of a slice.
    fn put(self, out: &mut [u8])
        requires { LENGTH ≤ length out.old }
        ensures { out.new ≡ written out.old 0 (fields_bytes (fields_at (code_of KIND)) (values_of (entry self))) };

    ghost sized: { LENGTH ≡ total (widths (fields_at (code_of KIND))) };

    ghost counted: { count ≡ length (fields_at (code_of KIND)) };

    ghost shown: { (v : List ℤ) → entry_of (code_of KIND) (given_values v (fields_at (code_of KIND))) ≡ entry_of (code_of KIND) v };
}

// The entry that the first of some values make.
pub fn entry_of<T: Stored>(v: &[i64]) -> Entry
    requires { T.count ≤ length v.now }
    ensures { result ≡ entry_of (code_of T.KIND) v.now }
{
    T::read(&mut Values { rest: v })
}

// The entry that some bytes begin with.
#[inline(always)]
pub fn entry_from<T: Stored>(s: &[u8]) -> Entry
    requires { T.LENGTH ≤ length s.now }
    ensures { result ≡ entry_of (code_of T.KIND) (values_from (code_of T.KIND) s.now) }
{
    T::read(&mut Bytes { rest: s })
}

// The bytes of the word that stands for a signed number.
fn put_signed(out: &mut [u8], x: i64)
    ensures { out.new ≡ bytes_of (length out.old) (complement 4 x) }
{
    put_number(out, word_of(x));
}

// m; p, q, a, b, n
impl Stored for Weighing {
    ghost entry = { λ x. entry.Weighing x };

    ghost KIND = { kind.Weighing };

    const KIND: Kind = Kind::Weighing;

    ghost count = { 6 };

    ghost LENGTH = { 21 };

    ghost sized = { total_weighing };

    ghost counted = { count_weighing };

    ghost shown = { shown_weighing };

    const LENGTH: usize = 21;

    #[tactic(auto, unfolding(paper::specs::File::layout_of))]
    #[inline(always)]
    fn read<S: Source>(from: &mut S) -> Entry {
        Entry::Weighing(Weighing {
            m: from.byte(),
            p: from.word(),
            q: from.word(),
            a: from.signed(),
            b: from.word(),
            n: from.word(),
        })
    }

    fn put(self, out: &mut [u8]) {
        put_number(&mut out[..1], self.m);
        put_number(&mut out[1..5], self.p);
        put_number(&mut out[5..9], self.q);
        put_signed(&mut out[9..13], self.a);
        put_number(&mut out[13..17], self.b);
        put_number(&mut out[17..21], self.n);
    }
}

// FWD, AFT, DRY, WET, NLP; front arm, least, greatest, step; rear and water arm, greatest, step
impl Stored for Sheet {
    ghost entry = { λ x. entry.Sheet x };

    ghost KIND = { kind.Sheet };

    const KIND: Kind = Kind::Sheet;

    ghost count = { 15 };

    ghost LENGTH = { 60 };

    ghost sized = { total_sheet };

    ghost counted = { count_sheet };

    ghost shown = { shown_sheet };

    const LENGTH: usize = 60;

    #[tactic(auto, unfolding(paper::specs::File::layout_of))]
    #[inline(always)]
    fn read<S: Source>(from: &mut S) -> Entry {
        let fwd = from.signed();
        let aft = from.signed();
        let dry = from.word();
        let wet = from.word();
        let nlp = from.word();
        let arm = from.signed();
        let least = from.word();
        Entry::Sheet(Sheet {
            fwd,
            aft,
            dry,
            wet,
            nlp,
            front: Station {
                arm,
                most: from.word(),
                step: from.word(),
            },
            least,
            rear: station(from),
            water: station(from),
        })
    }

    fn put(self, out: &mut [u8]) {
        put_signed(&mut out[..4], self.fwd);
        put_signed(&mut out[4..8], self.aft);
        put_number(&mut out[8..12], self.dry);
        put_number(&mut out[12..16], self.wet);
        put_number(&mut out[16..20], self.nlp);
        put_signed(&mut out[20..24], self.front.arm);
        put_number(&mut out[24..28], self.least);
        put_number(&mut out[28..32], self.front.most);
        put_number(&mut out[32..36], self.front.step);
        put_signed(&mut out[36..40], self.rear.arm);
        put_number(&mut out[40..44], self.rear.most);
        put_number(&mut out[44..48], self.rear.step);
        put_signed(&mut out[48..52], self.water.arm);
        put_number(&mut out[52..56], self.water.most);
        put_number(&mut out[56..60], self.water.step);
    }
}

// c, arm; flag
impl Stored for Change {
    ghost entry = { λ x. entry.Change x };

    ghost KIND = { kind.Change };

    const KIND: Kind = Kind::Change;

    ghost count = { 3 };

    ghost LENGTH = { 9 };

    ghost sized = { total_change };

    ghost counted = { count_change };

    ghost shown = { shown_change };

    const LENGTH: usize = 9;

    #[tactic(auto, unfolding(paper::specs::File::layout_of))]
    #[inline(always)]
    fn read<S: Source>(from: &mut S) -> Entry {
        Entry::Change(Change {
            c: from.signed(),
            arm: from.signed(),
            flag: from.byte(),
        })
    }

    fn put(self, out: &mut [u8]) {
        put_signed(&mut out[..4], self.c);
        put_signed(&mut out[4..8], self.arm);
        put_number(&mut out[8..9], self.flag);
    }
}

// m; p, q, p', q', a, b, n
impl Stored for Paired {
    ghost entry = { λ x. entry.Paired x };

    ghost KIND = { kind.Paired };

    const KIND: Kind = Kind::Paired;

    ghost count = { 8 };

    ghost LENGTH = { 29 };

    ghost sized = { total_paired };

    ghost counted = { count_paired };

    ghost shown = { shown_paired };

    const LENGTH: usize = 29;

    #[tactic(auto, unfolding(paper::specs::File::layout_of))]
    #[inline(always)]
    fn read<S: Source>(from: &mut S) -> Entry {
        Entry::Paired(Paired {
            m: from.byte(),
            p: from.word(),
            q: from.word(),
            p2: from.word(),
            q2: from.word(),
            a: from.signed(),
            b: from.word(),
            n: from.word(),
        })
    }

    fn put(self, out: &mut [u8]) {
        put_number(&mut out[..1], self.m);
        put_number(&mut out[1..5], self.p);
        put_number(&mut out[5..9], self.q);
        put_number(&mut out[9..13], self.p2);
        put_number(&mut out[13..17], self.q2);
        put_signed(&mut out[17..21], self.a);
        put_number(&mut out[21..25], self.b);
        put_number(&mut out[25..29], self.n);
    }
}

// lower arm, higher arm
impl Stored for Seat {
    ghost entry = { λ x. entry.Seat x };

    ghost KIND = { kind.Seat };

    const KIND: Kind = Kind::Seat;

    ghost count = { 2 };

    ghost LENGTH = { 8 };

    ghost sized = { total_seat };

    ghost counted = { count_seat };

    ghost shown = { shown_seat };

    const LENGTH: usize = 8;

    #[tactic(auto, unfolding(paper::specs::File::layout_of))]
    #[inline(always)]
    fn read<S: Source>(from: &mut S) -> Entry {
        Entry::Seat(Seat {
            lower: from.signed(),
            higher: from.signed(),
        })
    }

    fn put(self, out: &mut [u8]) {
        put_signed(&mut out[..4], self.lower);
        put_signed(&mut out[4..8], self.higher);
    }
}
