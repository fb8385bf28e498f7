// The record's calls by letters.
use crate::reread::{G, first_version, read_again};
use crate::sample::Fields;
use crate::sent::weigh_indicated;
use crate::texts::{between, place_of, text};
use lines::{first, read_full};
use paper::Refusal;
use record::Record;
use std::io;
use std::io::Read;

// The longest text of cases that is read in one.
const CASES: usize = 65536;

// The fields of an ordinary entry of each kind.
const WEIGHING: &[u8] = b"m1 p300000 q30000 a10000 b500000 n100000";

const HANGING: &[u8] = b"m3 p355 q90 a50 b13350 n0";

const LIGHT: &[u8] = b"m1 p200000 q0 a0 b1 n100000";

const PAIRED: &[u8] = b"m1 p300000 q30000 P300001 Q30010 a10000 b500000 n100000";

// A sheet of nine rows.
const SHEET: &[u8] = b"F25000 A42500 D380000 W450000 N240000 l55000 \
    a-47500 m110000 s1000 b10000 n100000 t50000 c30000 o100000 u50000";

// A sheet of one row that limits nothing but the front load.
const LAX_SHEET: &[u8] =
    b"F-2000000 A2000000 D2000000 W2000000 N0 l0 a0 m500000 s1000 b0 n0 t1 c0 o0 u1";

const CHANGE: &[u8] = b"c1000 a5000 f0";

const SEAT: &[u8] = b"l-50000 h-45000";

// A fresh record in the place of another.
fn afresh(log: &mut Record) -> Result<(), Refusal> {
    *log = Record::fresh();
    Ok(())
}

// A call: its letter, and the fields that stand behind it. Any other letter makes a fresh record, as = does, and so does no
// letter at all.
fn called(log: &mut Record, call: &[u8]) -> Result<(), Refusal> {
    let Some((letter, other)) = call.split_first() else {
        return afresh(log);
    };
    let by = |ordinary| Fields { ordinary, other };
    match letter {
        b'w' => log.weigh(by(WEIGHING).weighing()),
        b'v' => log.weigh(by(HANGING).weighing()),
        b'u' => log.weigh(by(LIGHT).weighing()),
        b'p' => log.weigh_paired(by(PAIRED).paired()),
        b'i' => weigh_indicated(log, text(other).unwrap_or_default()),
        b's' => log.install(by(SHEET).sheet()),
        b'l' => log.install(by(LAX_SHEET).sheet()),
        b'c' => log.change(by(CHANGE).change()),
        b'a' => log.adjust_seat(by(SEAT).seat()),
        b'r' => read_again(log),
        b'g' => file::read(log, &G),
        b'x' => file::read(log, &G[..88]),
        b'o' => file::read(log, &first_version()),
        b'-' => log.undo(),
        _ => afresh(log),
    }
}

// Calls one after the other; a comma or a line feed ends each. The answer is the last one's.
pub fn played(log: &mut Record, calls: &[u8]) -> Result<(), Refusal> {
    let mut last = Ok(());
    for ended in calls.split_inclusive(|x| *x == b',' || *x == b'\n') {
        if let [call @ .., b',' | b'\n'] = ended {
            last = called(log, call);
        }
    }
    last
}

// A case: its line, with the line feed, and the record that the line before left.
#[derive(Drop)]
pub struct Case<'a> {
    pub line: &'a [u8],
    pub log: &'a mut Record,
}

impl<'a> Case<'a> {
    // Whether the line is no case, but says something of those below.
    pub fn is_comment(&self) -> bool {
        self.line.starts_with(b"#")
    }

    // What stands in front of the colon, or the line where there is none.
    pub fn head(&self) -> &'a [u8] {
        first(self.line, place_of(self.line, b':'))
    }

    // Makes the calls, which stand behind the colon and a space. The answer is the last one's.
    pub fn play(&mut self) -> Result<(), Refusal> {
        let from = place_of(self.line, b':') + 2;
        played(self.log, between(self.line, from, self.line.len()))
    }
}

// The cases of a text in turn, a line for each: a head, a colon, a space, and calls that go on from the record that the line
// before left, a fresh one at first. What no line feed ends is no case.
pub fn each_case<F: FnMut(Case<'_>) -> io::Result<()>>(s: &[u8], mut act: F) -> io::Result<()>
    requires { F.IsAlwaysCallable act }
{
    let mut log = Record::fresh();
    for line in s.split_inclusive(|x| *x == b'\n') {
        if line.ends_with(b"\n") {
            act(Case {
                line,
                log: &mut log,
            })?;
        }
    }
    Ok(())
}

// The cases of a whole input in turn.
pub fn run<R: Read, F: FnMut(Case<'_>) -> io::Result<()>>(from: &mut R, act: F) -> io::Result<()>
    requires { F.IsAlwaysCallable act }
{
    let mut room = [0u8; CASES];
    each_case(read_full(from, &mut room)?, act)
}
