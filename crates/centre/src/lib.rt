#![tactic(auto)]

// What the centre-of-gravity call answers of what stands.
ghost use Rattle.std.specs.Prelude.{◌≡◌, List};
ghost use Rattle.paper.specs.Answers.{centre_answer};
ghost use Rattle.judge.specs.Standing.{stands_in, plainly};

use judge::Standing;
use paper::{CentreOfGravity, Refusal};

// Total, moment and empty centre of gravity of what stands: 7 before a weighing.
pub fn answer(standing: &Standing) -> Result<CentreOfGravity, Refusal>
    ensures { (es : List _) → plainly standing.now ≡ stands_in es → result ≡ centre_answer es }
{
    let b = standing.balance.ok_or(Refusal::NoWeighing)?;
    Ok(CentreOfGravity {
        total: b.total,
        moment: b.moment.value(),
        centre: b.centre(),
    })
}
