//! Why a joining says no.
ghost use Rattle.joining.specs.Faults.{joining_refusal};
ghost use Rattle.refusal.specs.Line.{refusal_line};
ghost use Rattle.std.specs.Prelude.{Some};

use refusal::{Fault, Layer, Refusal};
use std::error::Error;
use std::fmt;

/// What is wrong with the two rows that a joining was handed.
#[derive(Clone, Copy, PartialEq, Eq, Debug)]
pub enum JoiningFault {
    /// The rows are not equally long, or not 1 to 16 places long.
    Lengths,
    /// The first place whose weight is 0 or whose figure is above 1,000,000,000.
    Pair(usize),
}

/// Both faults are refusal 1 of the layer joining; the place is 0 or the pair's. (No `From`: see the trait.)
impl Fault for JoiningFault {
    ghost meaning = { joining_refusal };

    fn refusal(&self) -> Refusal {
        let place = match self {
            JoiningFault::Lengths => 0,
            JoiningFault::Pair(place) => *place,
        };
        Layer::Joining.refusal(1, place)
    }
}

/// A fault prints the line of its refusal. (Written out in each layer: what a derive
/// prints no contract says, and one impl for all faults Rust refuses.)
impl fmt::Display for JoiningFault {
    ghost output = { λ fault. Some (refusal_line (joining_refusal fault)) };

    fn fmt<W: fmt::Write>(&self, f: &mut fmt::Formatter<W>) -> fmt::Result {
        let refusal = self.refusal();
        write!(f, "{refusal}")
    }
}

/// A fault can be handed on by `?` as any error.
impl Error for JoiningFault {}
