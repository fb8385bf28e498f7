#![tactic(auto)]

// The rows of a placard that stand beside one rear load, as lines in a lent buffer. What is aboard is carried from row to row.
ghost use Rattle.std.specs.Prelude.{◌≡◌, ◌+◌, ◌*◌, ◌≤◌, ◌<◌, length};
ghost use Rattle.laws.specs.Written.{written};
ghost use Rattle.paper.specs.Placard.{line_length};
ghost use Rattle.balance.specs.Balance.{plain, Bounded};
ghost use Rattle.aboard.specs.Aboard.{LoadOf, Share};
ghost use Rattle.group.specs.Numbered.{rears, waters, lines_from, blanks_to};
ghost use Rattle.group.specs.Shared.{FieldsOf};

use aboard::{Arms, Laden};
use balance::Balance;
use limits::Front;
use paper::{MOST_ROWS, weight};
use seat::InForce;

// How many bytes a line has.
pub const LINE: usize = 36;

// The most waters that a sheet has: each has a row.
pub const WATERS: usize = MOST_ROWS as usize;

// What all rows of a placard have in common: the front seat of what is in force, and what a step of water adds.
#[derive(Clone, Copy)]
pub struct Terms {
    pub front: Front,
    pub share: Laden,
    pub ghost share_is: { LoadOf front.arms.force.sheet front.arms.force.sheet.water.step front.arms.force.sheet.water.arm share },
    pub ghost share_in: { Share share },
}

// The fields of the waters, each made once for all rear loads.
pub fn put_waters(force: &InForce, fields: &mut [u64])
    requires { length fields.old ≡ waters force.now.sheet }
    ensures { FieldsOf force.now.sheet fields.new }
{
    let step = force.sheet.water.step;
    let mut water = 0;
    for field in fields.iter_mut() {
        *field = line::field(water);
        water += step;
    }
}

impl Terms {
    pub fn new(force: InForce) -> Terms
        ensures { result.front.arms.force ≡ force }
    {
        let arms = Arms::new(force);
        let share = arms.grams_at(arms.force.sheet.water.step, arms.water);
        Terms {
            front: Front::new(arms),
            share,
        }
    }

    // Puts the lines of the rows beside the j-th rear load, and answers how many of them are blank. What is aboard starts afresh
    // with the rear load, and goes on by the share of a step of water; the share behind the last row is added and not used. A
    // line is put by its place: of a buffer that is lent in chunks nothing is known afterwards.
    pub fn put_group(&self, b: Balance, j: usize, fields: &[u64], out: &mut [u8]) -> usize
        requires { let s = self.now.front.arms.force.sheet in Bounded 1024 b × (j < rears s) × FieldsOf s fields.now × (line_length * waters s ≤ length out.old) }
        ensures { let f = self.now.front.arms.force in let n = waters f.sheet in (result ≤ n) × (result + blanks_to f.sheet f.seat (plain b) (j * n) ≡ blanks_to f.sheet f.seat (plain b) (j * n + n)) × (out.new ≡ written out.old 0 (lines_from f.sheet f.seat (plain b) (j * n) n)) }
    {
        let rear = j as u64 * self.front.arms.force.sheet.rear.step;
        let mut x = self.front.arms.beside(b, rear);
        let span = self
            .front
            .with_none(&x, b.nonlifting + weight::HALVES * rear);
        let field = line::field(rear);
        let mut none = 0;
        for (k, &water) in fields.iter().enumerate() {
            let y = row::row(&self.front, span, &x);
            line::put_line(&mut out[LINE * k..], field, water, y);
            none += usize::from(y.is_none());
            x = x.carried(self.share);
        }
        none
    }
}
