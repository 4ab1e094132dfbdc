//! The worst of a row.
ghost use Rattle.std.specs.Prelude.{◌≡◌, max, IfOk};
ghost use Rattle.joining.specs.Extremes.{greatest_is};
ghost use Rattle.joining.specs.ExtremesLawful.{worst_lawful};
ghost use Rattle.joining.specs.Faults.{joining_refusal};
ghost use Rattle.joining.specs.Joinings.{worst};
ghost use Rattle.joining.specs.Laws.{IsGreatest};
ghost use Rattle.joining.specs.Rows.{joined};
ghost use Rattle.refusal.specs.Told.{told};

use crate::extremes::{Choice, extreme};
use crate::fault::JoiningFault;
use crate::joining::Joining;

/// The greatest figure of the row, whatever the weights. (The field calls it the worst case.)
#[derive(Clone, Copy)]
pub struct Worst;

/// Of two figures it picks the greater.
impl Choice for Worst {
    ghost picked = { max };

    ghost IsExtreme = { IsGreatest };

    ghost reached = { greatest_is };

    fn pick(first: u32, second: u32) -> u32 {
        first.max(second)
    }
}

impl Joining for Worst {
    ghost meaning = { λ _. worst };

    ghost lawful = { λ _. worst_lawful };

    fn join(&self, weights: &[u8], figures: &[u32]) -> Result<u32, JoiningFault>
        ensures answer { told joining_refusal result ≡ joined worst weights.now figures.now }
        ensures greatest { IfOk result (λ figure. IsGreatest figures.now figure) }
    {
        extreme::<Worst>(weights, figures)
    }
}
