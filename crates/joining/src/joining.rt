//! The interface of a joining.
ghost use Rattle.std.specs.Prelude.{◌≡◌, ℕ, List};
ghost use Rattle.joining.specs.Faults.{joining_refusal};
ghost use Rattle.joining.specs.Laws.{Lawful};
ghost use Rattle.joining.specs.Rows.{joined};
ghost use Rattle.refusal.specs.Told.{told};

use crate::fault::JoiningFault;

/// A joining: one figure from the weights and the figures of a move's outcomes. (Two rows and not one of pairs: rows that
/// are not equally long are a fault of their own, and `rise` joins one row of weights with two of figures.)
pub trait Joining {
    // the function of the two rows that the joining stands for
    ghost meaning: { Self → List ℕ → List ℕ → ℕ };

    // its two laws, which every implementation proves
    ghost lawful: { (joining : Self) → Lawful (meaning joining) };

    /// The figure that the rows join to, or the fault of rows that are not lawful.
    fn join(&self, weights: &[u8], figures: &[u32]) -> Result<u32, JoiningFault>
        ensures answer { told joining_refusal result ≡ joined (meaning self.now) weights.now figures.now };
}
