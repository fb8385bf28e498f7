#![tactic(auto)]

// The text of an entry, as a line of the logbook has it.
ghost use Rattle.std.specs.Prelude.{◌≡◌, ◌++◌, ◌+◌, ◌*◌, ◌≤◌, length};
ghost use Rattle.arrayvec.specs.ArrayString.{array_string_len};
ghost use Rattle.paper.specs.declared.Entry.{Entry};
ghost use Rattle.paper.specs.declared.Entry.TheVariants as entry;
ghost use Rattle.paper.specs.File.{values_of};
ghost use Rattle.wording.specs.Texts.{spaced, values_text, entry_text};

use arrayvec::ArrayString;
use numerals::Number;
use paper::{Change, Entry, Paired, Seat, Sheet, Weighing};

// What stands before each value.
const SPACE: char = ' ';

// Room for every text: a name of at most eight bytes, and fifteen numbers of at most 21 with a space before each.
const LONGEST: usize = 338;

pub type Text = ArrayString<LONGEST>;

// A kind of entry, by what its values are.
trait Worded<const N: usize> {
    ghost entry: { Self → Entry };

    // Writes them behind what stands in a text, in the order of the file.
    fn put_values(self, text: &mut ArrayString<N>)
        requires { array_string_len text.old + 22 * length (values_of (entry self)) ≤ N }
        ensures { text.new.bytes ≡ text.old.bytes ++ values_text (values_of (entry self)) };
}

// Writes a number behind what stands in a text, and a space before it.
fn put_number<const N: usize, I: Number>(text: &mut ArrayString<N>, x: I)
    requires { array_string_len text.old + 22 ≤ N }
    ensures behind { text.new.bytes ≡ text.old.bytes ++ spaced (I.value x) }
    ensures few { array_string_len text.new ≤ array_string_len text.old + 22 }
{
    text.push(SPACE);
    numerals::put_number(text, x);
}

impl<const N: usize> Worded<N> for Weighing {
    ghost entry = { λ x. entry.Weighing x };

    fn put_values(self, text: &mut ArrayString<N>) {
        put_number(text, self.m);
        put_number(text, self.p);
        put_number(text, self.q);
        put_number(text, self.a);
        put_number(text, self.b);
        put_number(text, self.n);
    }
}

impl<const N: usize> Worded<N> for Sheet {
    ghost entry = { λ x. entry.Sheet x };

    fn put_values(self, text: &mut ArrayString<N>) {
        put_number(text, self.fwd);
        put_number(text, self.aft);
        put_number(text, self.dry);
        put_number(text, self.wet);
        put_number(text, self.nlp);
        put_number(text, self.front.arm);
        put_number(text, self.least);
        put_number(text, self.front.most);
        put_number(text, self.front.step);
        put_number(text, self.rear.arm);
        put_number(text, self.rear.most);
        put_number(text, self.rear.step);
        put_number(text, self.water.arm);
        put_number(text, self.water.most);
        put_number(text, self.water.step);
    }
}

impl<const N: usize> Worded<N> for Change {
    ghost entry = { λ x. entry.Change x };

    fn put_values(self, text: &mut ArrayString<N>) {
        put_number(text, self.c);
        put_number(text, self.arm);
        put_number(text, self.flag);
    }
}

impl<const N: usize> Worded<N> for Paired {
    ghost entry = { λ x. entry.Paired x };

    fn put_values(self, text: &mut ArrayString<N>) {
        put_number(text, self.m);
        put_number(text, self.p);
        put_number(text, self.q);
        put_number(text, self.p2);
        put_number(text, self.q2);
        put_number(text, self.a);
        put_number(text, self.b);
        put_number(text, self.n);
    }
}

impl<const N: usize> Worded<N> for Seat {
    ghost entry = { λ x. entry.Seat x };

    fn put_values(self, text: &mut ArrayString<N>) {
        put_number(text, self.lower);
        put_number(text, self.higher);
    }
}

// Writes the name of a kind, and behind it the values of an entry of that kind.
fn put_named<const N: usize, W: Worded<N>>(text: &mut ArrayString<N>, name: &str, x: W)
    requires { array_string_len text.old + length name.now + 22 * length (values_of (W.entry x)) ≤ N }
    ensures { text.new.bytes ≡ text.old.bytes ++ name.now ++ values_text (values_of (W.entry x)) }
{
    text.push_str(name);
    x.put_values(text);
}

// Writes the text of an entry behind what stands in a text.
#[tactic(auto, unfolding(crate::specs::Texts::entry_text, crate::specs::Texts::name_of))]
pub fn put_text<const N: usize>(text: &mut ArrayString<N>, e: Entry)
    requires { array_string_len text.old + 338 ≤ N }
    ensures { text.new.bytes ≡ text.old.bytes ++ entry_text e }
{
    match e {
        Entry::Weighing(w) => put_named(text, "weighing", w),
        Entry::Sheet(s) => put_named(text, "sheet", s),
        Entry::Change(x) => put_named(text, "change", x),
        Entry::Paired(x) => put_named(text, "paired", x),
        Entry::Seat(f) => put_named(text, "seat", f),
    }
}

// The text of an entry.
pub fn text_of(e: Entry) -> Text
    ensures { result.bytes ≡ entry_text e }
{
    let mut text = Text::new();
    put_text(&mut text, e);
    text
}
