//! Why a plant is not made, or a move not barred.
ghost use Rattle.plant.specs.Faults.{plant_refusal};
ghost use Rattle.refusal.specs.Line.{refusal_line};
ghost use Rattle.std.specs.Prelude.{Some};

use crate::bars::MOST_BARS;
use refusal::{Fault, Layer, Refusal};
use std::error::Error;
use std::fmt;

/// What is wrong with the numbers that a plant or an overlay was handed.
#[derive(Clone, Copy, PartialEq, Eq, Debug)]
pub enum PlantFault {
    /// An argument is out of its range; its index, from 0.
    Argument(usize),
    /// The plant below has no such move, or it is barred already; its state.
    Unknown(u16),
    /// It is the last move of its state; that state.
    LastMove(u16),
    /// Sixteen bars are held, and a barring holds no more.
    Full,
}

/// The faults are refusals 6 to 9 of the layer plant, in their order. (No `From`: see the trait.)
impl Fault for PlantFault {
    ghost meaning = { plant_refusal };

    fn refusal(&self) -> Refusal {
        let (number, place) = match self {
            PlantFault::Argument(index) => (6, *index),
            PlantFault::Unknown(state) => (7, usize::from(*state)),
            PlantFault::LastMove(state) => (8, usize::from(*state)),
            PlantFault::Full => (9, MOST_BARS),
        };
        Layer::Plant.refusal(number, place)
    }
}

/// A fault prints the line of its refusal. (Written out in each layer: what a derive
/// prints no contract says, and one impl for all faults Rust refuses.)
impl fmt::Display for PlantFault {
    ghost output = { λ fault. Some (refusal_line (plant_refusal fault)) };

    fn fmt<W: fmt::Write>(&self, f: &mut fmt::Formatter<W>) -> fmt::Result {
        let refusal = self.refusal();
        write!(f, "{refusal}")
    }
}

/// A fault can be handed on by `?` as any error.
impl Error for PlantFault {}
