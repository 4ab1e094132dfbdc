//! By how much an answer rises: generic code that rests on the laws of joinings alone.
ghost use Rattle.std.specs.Prelude.{◌≡◌};
ghost use Rattle.joining.specs.Faults.{joining_refusal};
ghost use Rattle.joining.specs.Rise.{LawfulRise, risen};
ghost use Rattle.refusal.specs.Told.{told};

use crate::fault::JoiningFault;
use crate::joining::Joining;

/// How far the answer rises from the figures `before` to the figures `after`; 0 where it does not rise.
pub fn rise<J: Joining>(
    joining: &J,
    weights: &[u8],
    before: &[u32],
    after: &[u32],
) -> Result<u32, JoiningFault>
    ensures answer { told joining_refusal result ≡ risen (J.meaning joining.now) weights.now before.now after.now }
    ensures laws { LawfulRise (J.meaning joining.now) weights.now before.now after.now (told joining_refusal result) }
{
    let low = joining.join(weights, before)?;
    let high = joining.join(weights, after)?;
    Ok(high.saturating_sub(low))
}
