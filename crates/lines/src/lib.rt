#![tactic(auto)]

// What the programs print, and what they take and how they read it.
ghost use Rattle.std.specs.Prelude.{◌≡◌, ◌≤◌, [], length, take, drop, IfOk, MatchResult};
ghost use Rattle.lines.specs.Written.{Writes};

use paper::{CentreOfGravity, Refusal};
use record::Record;
use std::io::Read;
use std::{fmt, io};

// What the centre-of-gravity call answers, as it is printed: number, total, moment and centre, noughts behind a refusal.
#[derive(Clone, Copy)]
pub struct Centre(pub Result<CentreOfGravity, Refusal>);

impl fmt::Display for Centre {
    fn fmt<W: fmt::Write>(&self, f: &mut fmt::Formatter<W>) -> fmt::Result {
        match self.0 {
            Ok(
                CentreOfGravity {
                    total,
                    moment,
                    centre,
                },
            ) => write!(f, "0 {total} {moment} {centre}"),
            Err(refusal) => write!(f, "{} 0 0 0", u64::from(refusal)),
        }
    }
}

// Reads until the buffer is full or there is no more. The answer is the part of it that is filled.
pub fn read_full<'a>(from: &mut impl Read, out: &'a mut [u8]) -> io::Result<&'a [u8]>
    ensures { IfOk result (λ s. length s.now ≤ length out.old) }
{
    let mut at = 0;
    for _ in 0..out.len() {
        let n = from.read(&mut out[at..])?;
        if n == 0 {
            break;
        }
        at += n;
    }
    Ok(first(out, at))
}

// The input in so many blocks, each as long as the buffer where there is as much, and handed on in turn.
pub fn each_block<R: Read, F: FnMut(&[u8]) -> io::Result<()>>(
    from: &mut R,
    buffer: &mut [u8],
    blocks: usize,
    mut act: F,
) -> io::Result<()>
    requires { F.IsAlwaysCallable act }
{
    for _ in 0..blocks {
        act(read_full(from, buffer)?)?;
    }
    Ok(())
}

// The first n bytes, or all where there are fewer, and those behind them.
pub fn split(s: &[u8], n: usize) -> (&[u8], &[u8])
    ensures first { result.0.now ≡ take n s.now }
    ensures behind { result.1.now ≡ drop n s.now }
{
    s.split_at(n.min(s.len()))
}

// The first n bytes, or all where there are fewer.
pub fn first(s: &[u8], n: usize) -> &[u8]
    ensures { result.now ≡ take n s.now }
{
    split(s, n).0
}

// The same of a buffer, which is lent.
pub fn lent(buffer: &mut [u8], n: usize) -> &mut [u8]
    ensures { result.now ≡ take n buffer.old }
{
    let room = n.min(buffer.len());
    &mut buffer[..room]
}

// What a call writes of a record at the front of a buffer, by the length that it answers.
pub fn written<'a, F: FnOnce(&Record, &mut [u8]) -> Result<usize, Refusal>>(
    call: F,
    log: &Record,
    out: &'a mut [u8],
) -> Result<&'a [u8], Refusal>
    requires { F.IsAlwaysCallable call }
    ensures { MatchResult result (λ s. (n : _) × (new : _) × Writes F.FnOnce call log.now out.old (Ok n) new × (s.now ≡ take n new)) (λ why. (new : _) × Writes F.FnOnce call log.now out.old (Err why) new) }
{
    let n = call(log, out)?;
    Ok(first(out, n))
}

// The same, with nothing for a refusal.
pub fn written_or_empty<'a, F: FnOnce(&Record, &mut [u8]) -> Result<usize, Refusal>>(
    call: F,
    log: &Record,
    out: &'a mut [u8],
) -> &'a [u8]
    requires { F.IsAlwaysCallable call }
    ensures { (r : _) × (new : _) × Writes F.FnOnce call log.now out.old r new × MatchResult r (λ n. result.now ≡ take n new) (λ why. result.now ≡ []) }
{
    written(call, log, out).unwrap_or_default()
}

// The sum of bytes, in which each place counts.
pub fn sum(s: &[u8]) -> u64 {
    s.iter()
        .fold(0, |n: u64, x| n % 1_000_003 * 257 + u64::from(*x))
}

// How many bytes behind those that are lent are looked at.
pub const BEHIND: usize = 16;

// How many bytes are AA, which a buffer has before it is lent.
pub fn unwritten(s: &[u8]) -> usize
    ensures { result ≤ length s.now }
{
    s.iter().filter(|x| **x == 0xAA).count()
}
