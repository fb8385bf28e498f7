#![tactic(auto)]

// What stands in a list of entries, and one judgement of the next entry against it: it serves every call and the reader of a file.
ghost use Rattle.std.specs.Prelude.{◌≡◌, ◌≤◌, ◌<◌, ◌+◌, Some};
ghost use Rattle.balance.specs.declared.Balance.{Balance};
ghost use Rattle.balance.specs.Balance.{Bounded};

use balance::Balance;
use paper::{CAPACITY, Entry, Refusal};
use seat::InForce;

// What stands in a list: how many entries there are, the balance of the last weighing and the changes behind it, and what is in
// force.
#[derive(Clone, Copy)]
pub struct Standing {
    pub entries: usize,
    pub balance: Option<Balance>,
    pub force: Option<InForce>,
    pub ghost few: { entries ≤ 64 },
    pub ghost sound: { (b : Balance) → balance ≡ Some b → Bounded entries b },
}

impl Standing {
    ghost use Rattle.std.specs.Prelude.{[]};
    ghost use Rattle.paper.specs.Numbers.{number_in};
    ghost use Rattle.judge.specs.Standing.{stands_in, plainly, judged, weighed_with, forced_with};

    // Nothing stands where there is no entry.
    pub fn new() -> Standing
        ensures { plainly result ≡ stands_in [] }
    {
        Standing {
            entries: 0,
            balance: None,
            force: None,
        }
    }

    // One entry more, which weighs or changes.
    fn weigh(&mut self, b: Balance)
        requires { (self.old.entries < 64) × Bounded (self.old.entries + 1) b }
        ensures { plainly self.new ≡ weighed_with (plainly self.old) b }
    {
        self.entries += 1;
        self.balance = Some(b);
    }

    // One entry more, which is in force from now on.
    fn put_in_force(&mut self, x: InForce)
        requires { self.old.entries < 64 }
        ensures { plainly self.new ≡ forced_with (plainly self.old) x }
    {
        self.entries += 1;
        self.force = Some(x);
    }

    // An entry at the end, or the number that it gets; then all stands as it was. Inlined, since a call copies the entry twice for
    // each of a file that is read.
    #[inline(always)]
    pub fn add(&mut self, e: Entry) -> Result<(), Refusal>
        ensures { (number_in result, plainly self.new) ≡ judged (plainly self.old) e }
    {
        if CAPACITY <= self.entries {
            return Err(Refusal::Full);
        }
        match e {
            Entry::Weighing(w) => self.weigh(weighing::weighed(w)?),
            Entry::Sheet(s) => self.put_in_force(InForce::new(s)?),
            Entry::Change(x) => {
                let b = self.balance.ok_or(Refusal::NoWeighing)?;
                self.weigh(change::changed(b, x)?);
            }
            Entry::Paired(x) => self.weigh(weighing::weighed(x)?),
            Entry::Seat(f) => {
                let x = self.force.ok_or(Refusal::NoSheet)?;
                self.put_in_force(x.moved(f)?);
            }
        }
        Ok(())
    }
}
