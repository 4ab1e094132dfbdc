//! What the fault enum of every layer offers.
ghost use Rattle.std.specs.Prelude.{◌≡◌};
ghost use Rattle.refusal.specs.declared.refusal.Refusal.{Refusal};

use crate::layer::Layer;
use crate::refusal::Refusal;

/// A layer's own enum of faults; each case stands for one refusal. (Each layer writes its own `Display` beside it: one for
/// all faults would be an impl of a foreign trait for a type parameter, which Rust refuses.)
pub trait Fault {
    // the refusal that a fault stands for
    ghost meaning: { Self → Refusal };

    /// The refusal that this fault stands for. (A method and not a `From`: the readings below say what they answer by
    /// the trait's `meaning`, and beside a `From` a law would have to tie the two.)
    fn refusal(&self) -> Refusal
        ensures { result ≡ meaning self.now };

    /// The refusal's number.
    fn number(&self) -> u8
        ensures { result ≡ (meaning self.now).number }
    {
        self.refusal().number
    }

    /// The layer that says no.
    fn layer(&self) -> Layer
        ensures { result ≡ (meaning self.now).layer }
    {
        self.refusal().layer
    }

    /// The place at fault.
    fn place(&self) -> usize
        ensures { result ≡ (meaning self.now).place }
    {
        self.refusal().place
    }
}
