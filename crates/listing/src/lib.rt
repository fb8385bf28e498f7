#![tactic(auto)]

// The listing of a record: its entries as lines of a logbook, with what each weighing and change comes to as a comment.
ghost use Rattle.std.specs.Prelude.{◌≡◌, ◌++◌, ◌+◌, ◌≤◌, [], length};
ghost use Rattle.arrayvec.specs.ArrayString.{array_string_len};
ghost use Rattle.record.specs.Held.{held_by};
ghost use Rattle.listing.specs.Listings.{halves, signed_halves, comment, remark, lines_of, listing, listed_answer};

use arrayvec::ArrayString;
use judge::Standing;
use paper::{CentreOfGravity, Entry, Refusal, weight};
use record::Record;

// Room for every listing: 64 entries, each with its comment of at most 430 bytes.
pub const LONGEST: usize = 27520;

type Text = ArrayString<LONGEST>;

// Writes half grams in grams behind what stands in a text, with `.5` behind where there is a half.
fn put_halves(text: &mut Text, n: u64)
    requires { array_string_len text.old + length (halves n) ≤ 27520 }
    ensures { text.new.bytes ≡ text.old.bytes ++ halves n }
{
    numerals::put_number(text, n / weight::HALVES);
    if n % weight::HALVES == 1 {
        text.push_str(".5");
    }
}

// The same with a minus in front of what is below 0.
fn put_signed_halves(text: &mut Text, x: i64)
    requires { array_string_len text.old + length (signed_halves x) ≤ 27520 }
    ensures { text.new.bytes ≡ text.old.bytes ++ signed_halves x }
{
    if x < 0 {
        text.push('-');
    }
    put_halves(text, x.unsigned_abs());
}

// Writes a comment's line there.
fn put_comment(text: &mut Text, c: CentreOfGravity)
    requires { array_string_len text.old + length (comment c) ≤ 27520 }
    ensures { text.new.bytes ≡ text.old.bytes ++ comment c }
{
    text.push_str("# total ");
    put_halves(text, c.total);
    text.push_str(" moment ");
    put_signed_halves(text, c.moment);
    text.push_str(" centre ");
    numerals::put_number(text, c.centre);
    text.push('\n');
}

// What follows the line of an entry, where the record up to it comes to `c`.
#[tactic(auto, unfolding(crate::specs::Listings::remark))]
fn put_remark(text: &mut Text, c: Result<CentreOfGravity, Refusal>, e: Entry)
    requires { array_string_len text.old + length (remark c e) ≤ 27520 }
    ensures { text.new.bytes ≡ text.old.bytes ++ remark c e }
{
    match (e, c) {
        (Entry::Sheet(_) | Entry::Seat(_), _) | (_, Err(_)) => {}
        (_, Ok(c)) => put_comment(text, c),
    }
}

// The lines of such an entry.
fn put_lines(text: &mut Text, c: Result<CentreOfGravity, Refusal>, e: Entry)
    requires { array_string_len text.old + 430 ≤ 27520 }
    ensures { text.new.bytes ≡ text.old.bytes ++ lines_of c e }
{
    wording::put_text(text, e);
    text.push('\n');
    put_remark(text, c, e);
}

// Writes the lines of the entries that a record holds.
fn put_listing(text: &mut Text, r: &Record)
    requires { text.old.bytes ≡ [] }
    ensures { text.new.bytes ≡ listing (held_by r.now) }
{
    let mut standing = Standing::new();
    for e in r.entries() {
        if standing.add(*e).is_ok() {
            put_lines(text, centre::answer(&standing), *e);
        }
    }
}

// The listing, and how many bytes it has: 11 where the buffer is too short, and then no byte of it changes.
pub fn show(r: &Record, out: &mut [u8]) -> Result<usize, Refusal>
    ensures { (result, out.new) ≡ listed_answer (held_by r.now) out.old }
{
    let mut text = Text::new();
    put_listing(&mut text, r);
    if out.len() < text.len() {
        return Err(Refusal::ShortBuffer);
    }
    Ok(laws::copy(text.as_bytes(), out))
}
