#![tactic(auto)]

// The schedule of equipment: a list of equipment by station as text, from the nose aft, and the sums of its weights.
ghost use Rattle.std.specs.Prelude.{◌≡◌, ◌++◌, ◌+◌, ◌≤◌, length, not, List};
ghost use Rattle.arrayvec.specs.ArrayString.{array_string_len};
ghost use Rattle.paper.specs.declared.Equipment.{Equipment};
ghost use Rattle.paper.specs.declared.Entry.{Entry};
ghost use Rattle.paper.specs.Record.{balance_of, is_none};
ghost use Rattle.paper.specs.Equipment.{fitted, equipment_of, total};
ghost use Rattle.schedule.specs.Schedules.{decimals, fixed, nets, line_of, sums, schedule, schedule_answer, Few};

use arrayvec::ArrayString;
use paper::{Equipment, Refusal};

// Room for every schedule: 64 lines of at most 77 bytes, and the sums with at most 56.
pub const LONGEST: usize = 4984;

type Text = ArrayString<LONGEST>;

// The decimals of a length in millimetres.
const HUNDREDTHS: u32 = 2;

// The decimals of a weight in kilograms.
const GRAMS: u32 = 3;

// Writes a number without a sign in units of the `k`-th decimal behind what stands in a text.
fn put_decimals(text: &mut Text, k: u32, n: u64)
    requires few { k ≤ 3 }
    requires room { array_string_len text.old + length (decimals k n) ≤ LONGEST }
    ensures { text.new.bytes ≡ text.old.bytes ++ decimals k n }
{
    numerals::put_number(text, n / 10u64.pow(k));
    text.push('.');
    numerals::put_digits(text, k as usize, n);
}

// The same with a minus in front of what is below 0.
fn put_fixed(text: &mut Text, k: u32, x: i64)
    requires few { k ≤ 3 }
    requires room { array_string_len text.old + length (fixed k x) ≤ LONGEST }
    ensures { text.new.bytes ≡ text.old.bytes ++ fixed k x }
{
    if x < 0 {
        text.push('-');
    }
    put_decimals(text, k, x.unsigned_abs());
}

// Writes the nets that end a line there.
fn put_nets(text: &mut Text, weight: i64, nonlifting: i64)
    requires { array_string_len text.old + length (nets weight nonlifting) ≤ LONGEST }
    ensures { text.new.bytes ≡ text.old.bytes ++ nets weight nonlifting }
{
    text.push(' ');
    put_fixed(text, GRAMS, weight);
    text.push(' ');
    put_fixed(text, GRAMS, nonlifting);
    text.push('\n');
}

// Writes the line of some equipment there.
fn put_line(text: &mut Text, e: Equipment)
    requires { array_string_len text.old + length (line_of e) ≤ LONGEST }
    ensures { text.new.bytes ≡ text.old.bytes ++ line_of e }
{
    put_fixed(text, HUNDREDTHS, e.arm);
    put_nets(text, e.weight, e.nonlifting);
}

// The sum of the net weights, and that of the net non-lifting weights.
fn sums_of(items: &[Equipment]) -> (i64, i64)
    requires { Few items.now }
    ensures weight { result.0 ≡ total (λ x. x.weight) items.now }
    ensures nonlifting { result.1 ≡ total (λ x. x.nonlifting) items.now }
{
    let mut weight = 0;
    let mut nonlifting = 0;
    for e in items {
        weight += e.weight;
        nonlifting += e.nonlifting;
    }
    (weight, nonlifting)
}

// Writes the sums of a list there.
fn put_sums(text: &mut Text, items: &[Equipment])
    requires few { Few items.now }
    requires room { array_string_len text.old + length (sums items.now) ≤ LONGEST }
    ensures { text.new.bytes ≡ text.old.bytes ++ sums items.now }
{
    let (weight, nonlifting) = sums_of(items);
    text.push_str("sum");
    put_nets(text, weight, nonlifting);
}

// The schedule of a list.
fn schedule_of(items: &[Equipment]) -> Text
    requires { Few items.now }
    ensures { result.bytes ≡ schedule items.now }
{
    let mut text = Text::new();
    for e in items {
        put_line(&mut text, *e);
    }
    put_sums(&mut text, items);
    text
}

// The schedule into a buffer, and how many bytes it has: 7 before a weighing, 11 where the buffer is too short, and then no byte of
// it changes.
pub fn answer(weighed: bool, items: &[Equipment], out: &mut [u8]) -> Result<usize, Refusal>
    requires { Few items.now }
    ensures { (es : List Entry) → weighed ≡ not (is_none (balance_of es)) → items.now ≡ equipment_of (fitted es) → (result, out.new) ≡ schedule_answer es out.old }
{
    if !weighed {
        return Err(Refusal::NoWeighing);
    }
    let text = schedule_of(items);
    if out.len() < text.len() {
        return Err(Refusal::ShortBuffer);
    }
    Ok(laws::copy(text.as_bytes(), out))
}
