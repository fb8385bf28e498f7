// What the fields of an entry are read from: the bytes of a file, or the values of a line.
ghost use Rattle.std.specs.Prelude.{◌≡◌, List, ℕ, ◌+◌, ◌*◌, ◌≤◌, ℤ, pos, length, drop};
ghost use Rattle.paper.specs.File.{Field, byte, word, signed_word, signed_at};
ghost use Rattle.kinds.specs.Values.{values_in, given_values, Gives, GivesStation, TakenNumber};

use paper::Station;
use words::{number_of, signed};

// What is still to be read. Each method reads a field, and goes on behind it.
pub trait Source {
    ghost left: { Self → ℕ };

    ghost size: { Field → ℕ };

    ghost given: { Self → List Field → List ℤ };

    fn byte(&mut self) -> u64
        requires { size byte ≤ left self.old }
        ensures { Gives left size given byte self.old (pos result) self.new };

    fn word(&mut self) -> u64
        requires { size word ≤ left self.old }
        ensures { Gives left size given word self.old (pos result) self.new };

    fn signed(&mut self) -> i64
        requires { size signed_word ≤ left self.old }
        ensures { Gives left size given signed_word self.old result self.new };
}

// Arm, greatest load and step.
#[inline(always)]
pub fn station<S: Source>(from: &mut S) -> Station
    requires { S.size signed_word + 2 * S.size word ≤ S.left from.old }
    ensures { GivesStation S.left S.size S.given from.old result from.new }
{
    Station {
        arm: from.signed(),
        most: from.word(),
        step: from.word(),
    }
}

// The bytes that are still to be read.
#[derive(Drop)]
pub struct Bytes<'a> {
    pub rest: &'a [u8],
}

impl Bytes<'_> {
    // The number that four bytes spell.
    #[inline(always)]
    fn number(&mut self) -> u32
        requires { 4 ≤ length self.old.rest.now }
        ensures { TakenNumber 4 self.old.rest.now result self.new.rest.now }
    {
        let s = self.rest;
        self.rest = &s[4..];
        number_of([s[0], s[1], s[2], s[3]])
    }
}

impl Source for Bytes<'_> {
    ghost left = { λ s. length s.rest.now };

    ghost size = { λ f. f.width };

    ghost given = { λ s fs. values_in fs s.rest.now };

    #[inline(always)]
    fn byte(&mut self) -> u64 {
        let s = self.rest;
        self.rest = &s[1..];
        u64::from(s[0])
    }

    #[inline(always)]
    fn word(&mut self) -> u64 {
        u64::from(self.number())
    }

    #[inline(always)]
    fn signed(&mut self) -> i64 {
        signed(self.number())
    }
}

// The values that are still to be read, one for each field.
#[derive(Drop)]
pub struct Values<'a> {
    pub rest: &'a [i64],
}

impl Values<'_> {
    fn next(&mut self) -> i64
        requires { 1 ≤ length self.old.rest.now }
        ensures { (result ≡ signed_at self.old.rest.now 0) × (self.new.rest.now ≡ drop 1 self.old.rest.now) × (length self.new.rest.now + 1 ≡ length self.old.rest.now) }
    {
        let v = self.rest;
        self.rest = &v[1..];
        v[0]
    }
}

impl Source for Values<'_> {
    ghost left = { λ v. length v.rest.now };

    ghost size = { λ f. 1 };

    ghost given = { λ v fs. given_values v.rest.now fs };

    fn byte(&mut self) -> u64 {
        self.next().unsigned_abs()
    }

    fn word(&mut self) -> u64 {
        self.byte()
    }

    fn signed(&mut self) -> i64 {
        self.next()
    }
}
