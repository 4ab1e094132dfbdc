//! The two rows that a joining takes, and the check that every joining makes of them.
ghost use Rattle.std.specs.Prelude.{◌≡◌};
ghost use Rattle.joining.specs.Faults.{joining_refusal};
ghost use Rattle.joining.specs.Judged.{Judged};
ghost use Rattle.joining.specs.Rows.{good_pair, joined};
ghost use Rattle.refusal.specs.Told.{told};

use crate::fault::JoiningFault;

/// The most places that a row has.
pub const LONGEST_ROW: usize = 16;

/// The least weight that a joining takes; the greatest, 255, is the greatest of its type.
pub const LEAST_WEIGHT: u8 = 1;

/// The greatest figure that a joining takes, in ticks.
pub const GREATEST_FIGURE: u32 = 1_000_000_000;

/// Whether the rows are lawful; if not, what is wrong first: their lengths, then the first bad pair.
pub fn check_rows(weights: &[u8], figures: &[u32]) -> Result<(), JoiningFault>
    ensures answer { told joining_refusal result ≡ joined (λ _ _. tt) weights.now figures.now }
    ensures means { Judged weights.now figures.now result }
{
    if weights.len() != figures.len() || weights.is_empty() || weights.len() > LONGEST_ROW {
        return Err(JoiningFault::Lengths);
    }
    let first_bad = weights
        .iter()
        .zip(figures)
        .position(|(weight, figure)| !good_pair(*weight, *figure));
    match first_bad {
        Some(place) => Err(JoiningFault::Pair(place)),
        None => Ok(()),
    }
}

// Whether one weight and its figure are within their limits; every weight of 8 bits is at most 255.
fn good_pair(weight: u8, figure: u32) -> bool
    ensures { result ≡ good_pair weight figure }
{
    weight >= LEAST_WEIGHT && figure <= GREATEST_FIGURE
}
