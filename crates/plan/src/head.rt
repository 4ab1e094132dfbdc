//! The first line of a plan text.
ghost use Rattle.std.specs.Prelude.{◌≡◌, ◌<◌, ◌≤◌};
ghost use Rattle.plan.specs.Faults.{plan_refusal};
ghost use Rattle.plan.specs.Lines.{head_at};
ghost use Rattle.refusal.specs.Told.{told};

use crate::fault::PlanFault;
use crate::forms::{keyword_at, state_at};
use crate::records::PlanHead;
use plant::MOST_STATES;
use text::{Parsed, Sign, ranged_at, sign_at};

// The version of the format.
const VERSION: u64 = 1;

// `(plan 1 N S)` and its line feed.
pub(crate) fn head_at(text: &[u8]) -> Result<Parsed<PlanHead>, PlanFault>
    ensures { told plan_refusal result ≡ head_at text.now }
{
    let inside = sign_at(text, 0, Sign::Open)?;
    let first = keyword_at(text, inside, b"plan")?;
    let version = ranged_at(text, first, VERSION, VERSION)?;
    let second = sign_at(text, version.next, Sign::Space)?;
    let count = ranged_at(text, second, 1, u64::from(MOST_STATES))?;
    let third = sign_at(text, count.next, Sign::Space)?;
    // Casts that the check proves to lose nothing; a `try_from` would add a fault that cannot come.
    let states = count.value as u16;
    let start = state_at(text, third, states)?;
    let close = sign_at(text, start.next, Sign::Close)?;
    let next = sign_at(text, close, Sign::Feed)?;
    let value = PlanHead {
        count: states,
        start: start.value as u16,
    };
    Ok(Parsed { value, next })
}
