//! The best of a row.
ghost use Rattle.std.specs.Prelude.{◌≡◌, min, IfOk};
ghost use Rattle.joining.specs.Extremes.{least_is};
ghost use Rattle.joining.specs.ExtremesLawful.{best_lawful};
ghost use Rattle.joining.specs.Faults.{joining_refusal};
ghost use Rattle.joining.specs.Joinings.{best};
ghost use Rattle.joining.specs.Laws.{IsLeast};
ghost use Rattle.joining.specs.Rows.{joined};
ghost use Rattle.refusal.specs.Told.{told};

use crate::extremes::{Choice, extreme};
use crate::fault::JoiningFault;
use crate::joining::Joining;

/// The least figure of the row, whatever the weights. (The field calls it the best case.)
#[derive(Clone, Copy)]
pub struct Best;

/// Of two figures it picks the lesser.
impl Choice for Best {
    ghost picked = { min };

    ghost IsExtreme = { IsLeast };

    ghost reached = { least_is };

    fn pick(first: u32, second: u32) -> u32 {
        first.min(second)
    }
}

impl Joining for Best {
    ghost meaning = { λ _. best };

    ghost lawful = { λ _. best_lawful };

    fn join(&self, weights: &[u8], figures: &[u32]) -> Result<u32, JoiningFault>
        ensures answer { told joining_refusal result ≡ joined best weights.now figures.now }
        ensures least { IfOk result (λ figure. IsLeast figures.now figure) }
    {
        extreme::<Best>(weights, figures)
    }
}
