#![tactic(auto)]

// Weighs a glider that has a record of 32 entries, one weighing and 31 changes, once for each byte on standard input, and
// writes how many of these calls were accepted with a 33rd entry. So the difference of two runs under a counter of
// instructions, by the difference of their inputs, is what one call costs.
use paper::{Change, Refusal, Weighing};
use record::Record;
use std::io;

const ENTRIES: usize = 32;

// A weighing on wheel and tail; each q is another call's.
fn weighing(q: u64) -> Weighing {
    Weighing {
        m: 1,
        p: 420_000,
        q,
        a: 12_500,
        b: 525_000,
        n: 190_000,
    }
}

// A part that is fitted, and with the other sign taken out again.
fn part(c: i64) -> Change {
    Change {
        c,
        arm: -100_000,
        flag: 1,
    }
}

// A weighing, and a change for each entry behind it.
fn filled() -> Result<Record, Refusal> {
    let mut r = Record::fresh();
    r.weigh(weighing(38_000))?;
    for c in [4_500, -4_500].iter().cycle().take(ENTRIES - 1) {
        r.change(part(*c))?;
    }
    Ok(r)
}

// So many weighings, each on the record as it was.
fn accepted(r: Record, calls: usize) -> usize {
    (0..calls)
        .filter(|q| {
            let mut log = r;
            log.weigh(weighing(*q as u64)).is_ok() && log.count == ENTRIES + 1
        })
        .count()
}

fn main(rt: HostRuntime) -> io::Result<()> {
    let mut room = [0u8; 4096];
    let calls = lines::read_full(&mut rt.reader(), &mut room)?.len();
    let n = filled().map_or(0, |r| accepted(r, calls));
    println!(rt; "{n} accepted")
}
