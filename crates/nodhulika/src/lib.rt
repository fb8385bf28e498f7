#![tactic(auto, using(crate::proofs::Signed::signed), unfolding(paper::specs::Journal::call_of))]

// The library for C and Rust: functions on numbers and byte slices. A record is lent as its file at the front of a buffer.
// Each function answers by the paper's number of refusal, 0 where there is none; include/nodhulika.h is its header, and
// nodhulika_c exports them.
ghost use Rattle.std.specs.Prelude.{◌≡◌, [], ◌++◌, ◌≤◌, length};
ghost use Rattle.laws.specs.Written.{written};
ghost use Rattle.paper.specs.Numbers.{number_in};
ghost use Rattle.paper.specs.File.{bytes_of};
ghost use Rattle.paper.specs.Journal as journal;
ghost use Rattle.front.specs.Front.{held_in, check_number, centre_for};
ghost use Rattle.lent.specs.Lent.{lent_file, lent_call, lent_read};
ghost use Rattle.nodhulika.specs.Exported.{centre_into, equipment_into, placard_into};

use paper::{
    Cell, Change, Indicated, Message, Paired, Refusal, Seat, Sheet, Station, Weighing, number,
};
use words::long_of;

// How many bytes the numbers of an answer take.
pub const ANSWER: usize = 24;

// A fresh record at the front of the buffer.
pub fn nodhulika_fresh(buffer: &mut [u8]) -> u64
    ensures { (result, buffer.new) ≡ lent_file [] buffer.old }
{
    number(&lent::fresh(buffer))
}

// Whether the buffer holds a record.
pub fn nodhulika_check(buffer: &[u8]) -> u64
    ensures { result ≡ check_number buffer.now }
{
    number(&front::check(buffer))
}

// A weighing.
pub fn nodhulika_weigh(buffer: &mut [u8], m: u64, p: u64, q: u64, a: i64, b: u64, n: u64) -> u64
    ensures { (result, buffer.new) ≡ lent_call (journal.weigh (record { m = m; p = p; q = q; a = a; b = b; n = n })) buffer.old }
{
    let w = Weighing { m, p, q, a, b, n };
    number(&lent::add(buffer, w.into()))
}

// A paired weighing.
pub fn nodhulika_weigh_paired(
    buffer: &mut [u8],
    m: u64,
    p: u64,
    q: u64,
    p2: u64,
    q2: u64,
    a: i64,
    b: u64,
    n: u64,
) -> u64
    ensures { (result, buffer.new) ≡ lent_call (journal.pair (record { m = m; p = p; q = q; p2 = p2; q2 = q2; a = a; b = b; n = n })) buffer.old }
{
    let x = Paired {
        m,
        p,
        q,
        p2,
        q2,
        a,
        b,
        n,
    };
    number(&lent::add(buffer, x.into()))
}

// A reading of a cell, as it is lent.
fn message(bytes: &[u8], rated: f64, zero: f64) -> Message<'_>
    ensures { result ≡ record { bytes = bytes.entry; cell = record { rated = rated; zero = zero } } }
{
    let cell = Cell { rated, zero };
    Message { bytes, cell }
}

// A paired weighing as an indicator sends it: each reading's nine bytes, and its cell's rated kilograms and zero.
#[tactic(auto, unfolding(paper::specs::Indicator::sent_by))]
pub fn nodhulika_weigh_indicated(
    buffer: &mut [u8],
    m: u64,
    p: &[u8],
    p_rated: f64,
    p_zero: f64,
    q: &[u8],
    q_rated: f64,
    q_zero: f64,
    p2: &[u8],
    p2_rated: f64,
    p2_zero: f64,
    q2: &[u8],
    q2_rated: f64,
    q2_zero: f64,
    a: i64,
    b: u64,
    n: u64,
) -> u64
    ensures { (result, buffer.new) ≡ lent_call (journal.indicate (record { m = m; p = record { bytes = p.now; cell = record { rated = p_rated; zero = p_zero } }; q = record { bytes = q.now; cell = record { rated = q_rated; zero = q_zero } }; p2 = record { bytes = p2.now; cell = record { rated = p2_rated; zero = p2_zero } }; q2 = record { bytes = q2.now; cell = record { rated = q2_rated; zero = q2_zero } }; a = a; b = b; n = n })) buffer.old }
{
    let x = Indicated {
        m,
        p: message(p, p_rated, p_zero),
        q: message(q, q_rated, q_zero),
        p2: message(p2, p2_rated, p2_zero),
        q2: message(q2, q2_rated, q2_zero),
        a,
        b,
        n,
    };
    number(&lent::indicate(buffer, x))
}

// A data sheet.
pub fn nodhulika_sheet(
    buffer: &mut [u8],
    fwd: i64,
    aft: i64,
    dry: u64,
    wet: u64,
    nlp: u64,
    front_arm: i64,
    front_least: u64,
    front_most: u64,
    front_step: u64,
    rear_arm: i64,
    rear_most: u64,
    rear_step: u64,
    water_arm: i64,
    water_most: u64,
    water_step: u64,
) -> u64
    ensures { (result, buffer.new) ≡ lent_call (journal.install (record { fwd = fwd; aft = aft; dry = dry; wet = wet; nlp = nlp; front = record { arm = front_arm; most = front_most; step = front_step }; least = front_least; rear = record { arm = rear_arm; most = rear_most; step = rear_step }; water = record { arm = water_arm; most = water_most; step = water_step } })) buffer.old }
{
    let front = Station {
        arm: front_arm,
        most: front_most,
        step: front_step,
    };
    let rear = Station {
        arm: rear_arm,
        most: rear_most,
        step: rear_step,
    };
    let water = Station {
        arm: water_arm,
        most: water_most,
        step: water_step,
    };
    let s = Sheet {
        fwd,
        aft,
        dry,
        wet,
        nlp,
        front,
        least: front_least,
        rear,
        water,
    };
    number(&lent::add(buffer, s.into()))
}

// A change.
pub fn nodhulika_change(buffer: &mut [u8], c: i64, arm: i64, flag: u64) -> u64
    ensures { (result, buffer.new) ≡ lent_call (journal.change (record { c = c; arm = arm; flag = flag })) buffer.old }
{
    let x = Change { c, arm, flag };
    number(&lent::add(buffer, x.into()))
}

// A seat entry.
pub fn nodhulika_seat(buffer: &mut [u8], lower: i64, higher: i64) -> u64
    ensures { (result, buffer.new) ≡ lent_call (journal.seat (record { lower = lower; higher = higher })) buffer.old }
{
    let f = Seat { lower, higher };
    number(&lent::add(buffer, f.into()))
}

// Taking back.
pub fn nodhulika_undo(buffer: &mut [u8]) -> u64
    ensures { (result, buffer.new) ≡ lent_call journal.undo buffer.old }
{
    number(&lent::undo(buffer))
}

// Reading back: a file in the place of what the buffer holds.
pub fn nodhulika_read(buffer: &mut [u8], file: &[u8]) -> u64
    ensures { (result, buffer.new) ≡ lent_read file.now buffer.old }
{
    number(&lent::read(buffer, file))
}

// Three words at the front of a buffer.
fn put_words(out: &mut [u8], x: u64, y: u64, z: u64)
    requires { 24 ≤ length out.old }
    ensures { out.new ≡ written out.old 0 (bytes_of 8 x ++ (bytes_of 8 y ++ bytes_of 8 z)) }
{
    words::put_number(&mut out[..8], x);
    words::put_number(&mut out[8..16], y);
    words::put_number(&mut out[16..24], z);
}

// Total, moment and centre into `answer`: 11 where it is too short.
fn centre(buffer: &[u8], answer: &mut [u8]) -> Result<(), Refusal>
    ensures { (number_in result, answer.new) ≡ centre_into (centre_for (held_in buffer.now)) answer.old }
{
    let c = front::centre(buffer)?;
    if answer.len() < ANSWER {
        return Err(Refusal::ShortBuffer);
    }
    put_words(answer, c.total, long_of(c.moment), long_of(c.centre));
    Ok(())
}

// Total and moment, in half grams, and empty centre of gravity, into `answer`.
pub fn nodhulika_centre(buffer: &[u8], answer: &mut [u8]) -> u64
    ensures { (result, answer.new) ≡ centre_into (centre_for (held_in buffer.now)) answer.old }
{
    number(&centre(buffer, answer))
}

// The equipment by station into three columns, and the count of arms into `count`.
fn equipment(
    buffer: &[u8],
    arms: &mut [i64],
    weights: &mut [i64],
    nonlifting: &mut [i64],
    count: &mut u64,
) -> Result<(), Refusal>
    ensures { (number_in result, arms.new, weights.new, nonlifting.new, count.new) ≡ equipment_into (held_in buffer.now) arms.old weights.old nonlifting.old count.old }
{
    *count = front::equipment(buffer, arms, weights, nonlifting)? as u64;
    Ok(())
}

// Equipment by station: the arms, the net weights and the net non-lifting weights there, and how many arms there are.
pub fn nodhulika_equipment(
    buffer: &[u8],
    arms: &mut [i64],
    weights: &mut [i64],
    nonlifting: &mut [i64],
    count: &mut u64,
) -> u64
    ensures { (result, arms.new, weights.new, nonlifting.new, count.new) ≡ equipment_into (held_in buffer.now) arms.old weights.old nonlifting.old count.old }
{
    number(&equipment(buffer, arms, weights, nonlifting, count))
}

// The placard into `out` and its counts into `answer`; where that is too short, the refusal with no byte for the placard.
fn placard(buffer: &[u8], out: &mut [u8], answer: &mut [u8]) -> Result<(), Refusal>
    ensures { (number_in result, out.new, answer.new) ≡ placard_into (held_in buffer.now) out.old answer.old }
{
    if answer.len() < ANSWER {
        let mut nothing = [0u8; 0];
        front::placard(buffer, &mut nothing)?;
        return Ok(());
    }
    let a = front::placard(buffer, out)?;
    put_words(answer, a.bytes as u64, a.rows as u64, a.blank as u64);
    Ok(())
}

// The placard, into `out`, and its bytes, rows and blank rows, into `answer`.
pub fn nodhulika_placard(buffer: &[u8], out: &mut [u8], answer: &mut [u8]) -> u64
    ensures { (result, out.new, answer.new) ≡ placard_into (held_in buffer.now) out.old answer.old }
{
    number(&placard(buffer, out, answer))
}
