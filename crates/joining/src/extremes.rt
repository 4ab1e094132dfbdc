//! The extreme figure of a row: the loop that the worst and the best share.
ghost use Rattle.std.specs.Prelude.{◌≡◌, ℕ, ◌≤◌, List, length, fold, slice_index, IfOk};
ghost use Rattle.joining.specs.Faults.{joining_refusal};
ghost use Rattle.joining.specs.Rows.{joined};
ghost use Rattle.refusal.specs.Told.{told};

use crate::fault::JoiningFault;
use crate::rows::check_rows;

/// A joining that picks one of two figures until one is left of the row.
pub(crate) trait Choice {
    // which of two figures is picked
    ghost picked: { ℕ → ℕ → ℕ };

    // what a figure of a row has to be, to be its extreme
    ghost IsExtreme: { List ℕ → ℕ → Type 0 };

    /// The one of the two figures that is picked.
    fn pick(first: u32, second: u32) -> u32
        ensures { result ≡ picked first second };

    // the law, which each implementation proves: what is left of a row is its extreme
    ghost reached: { (fs : List ℕ) → 1 ≤ length fs → IsExtreme fs (fold picked (slice_index fs 0) fs) };
}

/// The extreme figure of the row, or the fault of rows that are not lawful.
pub(crate) fn extreme<C: Choice>(weights: &[u8], figures: &[u32]) -> Result<u32, JoiningFault>
    ensures answer { told joining_refusal result
        ≡ joined (λ _ fs. fold C.picked (slice_index fs 0) fs) weights.now figures.now }
    ensures extreme { IfOk result (λ figure. C.IsExtreme figures.now figure) }
{
    check_rows(weights, figures)?;
    // A loop over the figures and not a fold, as docs/DECISIONS.md says of joinings.
    let mut extreme = figures[0];
    for figure in figures {
        extreme = C::pick(extreme, *figure);
    }
    Ok(extreme)
}
