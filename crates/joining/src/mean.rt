//! The mean of a row.
ghost use Rattle.std.specs.Prelude.{◌≡◌, ◌≤◌, length};
ghost use Rattle.joining.specs.Joinings.{mean, weight_total};
ghost use Rattle.joining.specs.MeanLawful.{mean_lawful};

use crate::fault::JoiningFault;
use crate::joining::Joining;
use crate::rows::check_rows;

/// The mean of the figures by their weights, its fraction dropped. (The field calls it the expected value.)
#[derive(Clone, Copy)]
pub struct Mean;

impl Joining for Mean {
    ghost meaning = { λ _. mean };

    ghost lawful = { λ _. mean_lawful };

    fn join(&self, weights: &[u8], figures: &[u32]) -> Result<u32, JoiningFault> {
        check_rows(weights, figures)?;
        let all = weight_total(weights);
        // A loop over the pairs and not a fold, as docs/DECISIONS.md says of joinings.
        let mut sum: u64 = 0;
        for (weight, figure) in weights.iter().zip(figures) {
            sum += u64::from(*weight) * u64::from(*figure);
        }
        // The cast loses nothing, as the check proves; a `try_from` would add a fault that cannot come.
        Ok((sum / all) as u32)
    }
}

// The total of the weights of one row.
#[tactic(auto, using(crate::specs::MeanLawful::total_is_sum))]
fn weight_total(weights: &[u8]) -> u64
    requires { length weights.now ≤ 16 }
    ensures { result ≡ weight_total weights.now }
{
    weights.iter().map(|weight| u64::from(*weight)).sum()
}
