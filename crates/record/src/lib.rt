#![tactic(auto)]

// The record: a list of at most 64 accepted entries, and the calls on it. Each call replays the entries that the record holds,
// so it answers for every value of the type, also for one that no call made.
ghost use Rattle.std.specs.Prelude.{◌≡◌, ◌<◌, [], ◌∷◌, ◌++◌};
ghost use Rattle.paper.specs.Refusals.{entry_number};
ghost use Rattle.paper.specs.Indicator.{sent_by};
ghost use Rattle.paper.specs.Journal as journal;
ghost use Rattle.paper.specs.Answers.{centre_answer};
ghost use Rattle.record.specs.Held.{record_of, slotted, held_by, answered, kept_or, put, ReplayedAs};

use judge::Standing;
use paper::{
    CAPACITY, CentreOfGravity, Change, Entry, Indicated, Paired, Refusal, Seat, Sheet, Weighing,
};

// What an unused slot holds: a change of nothing, which no call accepts.
const UNUSED: Entry = Entry::Change(Change {
    c: 0,
    arm: 0,
    flag: 0,
});

// The first `count` slots hold the entries; the others hold what a fresh record's hold.
#[derive(Clone, Copy)]
pub struct Record {
    pub slots: [Entry; CAPACITY],
    pub count: usize,
}

// The entries of a record that their calls accept in turn, as a record of their own, and what stands in it.
#[derive(Clone, Copy)]
pub struct Replayed {
    pub log: Record,
    pub standing: Standing,
}

// The entries of a record in turn.
pub fn replay(r: &Record) -> Replayed
    ensures { ReplayedAs (held_by r.now) result }
{
    let mut log = Record::fresh();
    let mut standing = Standing::new();
    for e in r.entries() {
        if standing.add(*e).is_ok() {
            log.push(*e);
        }
    }
    Replayed { log, standing }
}

impl Record {
    // A fresh record: no entry.
    pub fn fresh() -> Record
        ensures { result ≡ record_of [] }
    {
        Record {
            slots: [UNUSED; CAPACITY],
            count: 0,
        }
    }

    // The entries in the used slots, accepted or not.
    pub fn entries(&self) -> &[Entry]
        ensures { result.now ≡ slotted self.now }
    {
        &self.slots[..self.count.min(CAPACITY)]
    }

    // An entry in the first unused slot, whether its call accepts it or not. Inlined, since a call copies the entry once more.
    #[inline(always)]
    pub fn push(&mut self, e: Entry)
        requires { self.old.count < 64 }
        ensures { self.new ≡ put self.old e }
    {
        self.slots[self.count] = e;
        self.count += 1;
    }

    // An entry at the end, or why it is refused; then the record is as it was.
    fn add(&mut self, e: Entry) -> Result<(), Refusal>
        ensures { (result, self.new) ≡ kept_or (entry_number (held_by self.old) e) self.old (held_by self.old ++ e ∷ []) }
    {
        let mut now = replay(self);
        now.standing.add(e)?;
        now.log.push(e);
        *self = now.log;
        Ok(())
    }

    // A weighing.
    pub fn weigh(&mut self, w: Weighing) -> Result<(), Refusal>
        ensures { (result, self.new) ≡ answered self.old (journal.weigh w) }
    {
        self.add(w.into())
    }

    // A paired weighing.
    pub fn weigh_paired(&mut self, pair: Paired) -> Result<(), Refusal>
        ensures { (result, self.new) ≡ answered self.old (journal.pair pair) }
    {
        self.add(pair.into())
    }

    // A paired weighing as an indicator sends it.
    pub fn weigh_indicated(&mut self, x: Indicated) -> Result<(), Refusal>
        ensures { (result, self.new) ≡ answered self.old (journal.indicate (sent_by x.entry)) }
    {
        let pair = indicator::pair(x)?;
        self.weigh_paired(pair)
    }

    // A data sheet.
    pub fn install(&mut self, s: Sheet) -> Result<(), Refusal>
        ensures { (result, self.new) ≡ answered self.old (journal.install s) }
    {
        self.add(s.into())
    }

    // A change.
    pub fn change(&mut self, x: Change) -> Result<(), Refusal>
        ensures { (result, self.new) ≡ answered self.old (journal.change x) }
    {
        self.add(x.into())
    }

    // A seat entry.
    pub fn adjust_seat(&mut self, f: Seat) -> Result<(), Refusal>
        ensures { (result, self.new) ≡ answered self.old (journal.seat f) }
    {
        self.add(f.into())
    }

    // Taking back.
    pub fn undo(&mut self) -> Result<(), Refusal>
        ensures { (result, self.new) ≡ answered self.old journal.undo }
    {
        let mut log = replay(self).log;
        let last = log.count.checked_sub(1).ok_or(Refusal::Empty)?;
        log.slots[last] = UNUSED;
        log.count = last;
        *self = log;
        Ok(())
    }

    // Total, moment and empty centre of gravity.
    pub fn centre_of_gravity(&self) -> Result<CentreOfGravity, Refusal>
        ensures { result ≡ centre_answer (held_by self.now) }
    {
        let now = replay(self);
        centre::answer(&now.standing)
    }
}
