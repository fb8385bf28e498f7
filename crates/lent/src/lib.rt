#![tactic(auto)]

// The calls that change a record which is lent as its file at the front of a buffer. The file is surveyed in place and changed in
// place; what stands behind it in the buffer is free and stays. A file of an older version is taken as it is, and the first call
// that changes it leaves it in the version that is written.
ghost use Rattle.std.specs.Prelude.{◌≡◌, List, [], ◌∷◌, ◌++◌, ℕ, ◌+◌, ◌≤◌, length, take};
ghost use Rattle.std.proofs.Math.Option.{some};
ghost use Rattle.paper.specs.declared.Entry.{Entry};
ghost use Rattle.paper.specs.Numbers.{number_in};
ghost use Rattle.paper.specs.File.{file_as};
ghost use Rattle.paper.specs.Indicator.{sent_by};
ghost use Rattle.paper.specs.Journal.{call_of, indicate as indicate_call, undo as undo_call};
ghost use Rattle.front.specs.Front.{held_in};
ghost use Rattle.stored.specs.Found.{ContentsOf};
ghost use Rattle.lent.specs.Lent.{lent_file, lent_call, lent_read};

use header::{Header, Version};
use paper::{Entry, Indicated, Refusal};
use stored::Contents;

// A fresh record at the front of the buffer: 11 where it is too short.
pub fn fresh(buffer: &mut [u8]) -> Result<(), Refusal>
    ensures { (number_in result, buffer.new) ≡ lent_file [] buffer.old }
{
    if buffer.len() < Header::LENGTH {
        return Err(Refusal::ShortBuffer);
    }
    header::put_header(buffer, Header::LENGTH, 0);
    Ok(())
}

// An entry behind a file, of whatever version, that ends where `found` says, where the buffer has room for it: the file has as many
// entries then as stand.
fn append(buffer: &mut [u8], found: &Contents, e: Entry) -> Result<(), Refusal>
    requires { (6 ≤ found.now.end) × (found.now.end ≤ length buffer.old) }
    ensures { (v : ℕ) (es : List Entry) → found.now.standing.entries ≡ length es + 1 → take found.now.end buffer.old ≡ file_as v es → (number_in result, buffer.new) ≡ lent_file (es ++ e ∷ []) buffer.old }
{
    if buffer.len() - found.end < entries::length_of(e) {
        return Err(Refusal::ShortBuffer);
    }
    let behind = found.end + entries::put_entry(&mut buffer[found.end..], e);
    header::put_header(buffer, behind, found.standing.entries);
    Ok(())
}

// An entry behind the file that was found in the buffer, or why its call refuses it.
fn add_behind(buffer: &mut [u8], found: &mut Contents, e: Entry) -> Result<(), Refusal>
    requires { (es : List Entry) × (held_in buffer.old ≡ some es) × ContentsOf es found.old }
    ensures { (number_in result, buffer.new) ≡ lent_call (call_of e) buffer.old }
{
    found.standing.add(e)?;
    append(buffer, found, e)
}

// A weighing, plain or paired, a data sheet, a change or a seat entry.
pub fn add(buffer: &mut [u8], e: Entry) -> Result<(), Refusal>
    ensures { (number_in result, buffer.new) ≡ lent_call (call_of e) buffer.old }
{
    let mut found = front::held(buffer)?;
    add_behind(buffer, &mut found, e)
}

// A paired weighing as an indicator sends it.
pub fn indicate(buffer: &mut [u8], x: Indicated) -> Result<(), Refusal>
    ensures { (number_in result, buffer.new) ≡ lent_call (indicate_call (sent_by x.entry)) buffer.old }
{
    let mut found = front::held(buffer)?;
    let pair = indicator::pair(x)?;
    add_behind(buffer, &mut found, pair.into())
}

// Taking back: the header says one entry less, and its bytes are free.
pub fn undo(buffer: &mut [u8]) -> Result<(), Refusal>
    ensures { (number_in result, buffer.new) ≡ lent_call undo_call buffer.old }
{
    let found = front::held(buffer)?;
    let last = found.last.ok_or(Refusal::Empty)?;
    header::put_header(buffer, last, found.standing.entries - 1);
    Ok(())
}

// Reading back: a file in the place of what the buffer holds, in the version that is written.
pub fn read(buffer: &mut [u8], file: &[u8]) -> Result<(), Refusal>
    ensures { (number_in result, buffer.new) ≡ lent_read file.now buffer.old }
{
    stored::survey(file).ok_or(Refusal::NoFile)?;
    if buffer.len() < file.len() {
        return Err(Refusal::ShortBuffer);
    }
    laws::copy(file, buffer);
    buffer[Header::VERSION] = Version::WRITTEN as u8;
    Ok(())
}
