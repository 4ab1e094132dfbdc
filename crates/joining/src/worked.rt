//! Rows worked out by hand, proved of the rules and answered by the code.
ghost use Rattle.std.specs.Prelude.{◌≡◌, [], ◌∷◌, Ok};
ghost use Rattle.joining.specs.Worked.{ShutOut, WorkedRows};

use crate::best::Best;
use crate::fault::JoiningFault;
use crate::joining::Joining;
use crate::mean::Mean;
use crate::worst::Worst;

/// The answers to four worked rows: the mean of 5 and 6, the mean of three hundreds, the worst and the best of 9 and 2.
#[tactic(auto, using(crate::proofs::Examples::shut_out))]
pub fn worked_rows() -> Result<[u32; 4], JoiningFault>
    ensures rows { WorkedRows }
    ensures shut_out { ShutOut }
    ensures answers { result ≡ Ok (5 ∷ 100 ∷ 9 ∷ 2 ∷ []) }
{
    let fraction = Mean.join(&[1, 1], &[5, 6])?;
    let shares = Mean.join(&[1, 1, 1], &[100, 100, 100])?;
    let greatest = Worst.join(&[1, 1], &[9, 2])?;
    let least = Best.join(&[1, 1], &[9, 2])?;
    Ok([fraction, shares, greatest, least])
}
