//! A refusal, and the line that it prints.
ghost use Rattle.refusal.specs.Line.{refusal_line};
ghost use Rattle.std.specs.Prelude.{Some};

use crate::layer::Layer;
use std::fmt;

/// Why a call was refused: the refusal's number, the layer that says no, and the place at fault.
#[derive(Clone, Copy, PartialEq, Eq, Debug)]
pub struct Refusal {
    /// Which refusal it is. (A number, as it prints: the kinds are the cases of each layer's enum of faults.)
    pub number: u8,
    /// The layer that says no.
    pub layer: Layer,
    /// Where the fault is; what it counts depends on the refusal.
    pub place: usize,
}

/// A refusal prints as one line without its line feed, as `(refused joining 1 at 0)`. (Written out: what a derive
/// prints no contract says.)
impl fmt::Display for Refusal {
    ghost output = { λ refusal. Some (refusal_line refusal) };

    fn fmt<W: fmt::Write>(&self, f: &mut fmt::Formatter<W>) -> fmt::Result {
        let Refusal {
            number,
            layer,
            place,
        } = *self;
        write!(f, "(refused {layer} {number} at {place})")
    }
}
