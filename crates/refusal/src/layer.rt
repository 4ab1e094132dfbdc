//! The layers of the planner that can say no.
ghost use Rattle.refusal.specs.Line.{layer_word};
ghost use Rattle.std.specs.Prelude.{◌≡◌, Some};

use crate::refusal::Refusal;
use std::fmt;

/// The layer of the planner that refuses a call.
#[derive(Clone, Copy, PartialEq, Eq, Debug)]
pub enum Layer {
    /// Joining a row of figures.
    Joining,
    /// Reading bytes and numbers of a text.
    Text,
    /// Reading a plan.
    Plan,
    /// Making or altering a plant.
    Plant,
    /// Opening or following a run.
    Run,
}

impl Layer {
    /// The refusal of this layer with a number, at a place.
    pub fn refusal(self, number: u8, place: usize) -> Refusal
        ensures { result ≡ record { number = number; layer = self; place = place } }
    {
        Refusal {
            number,
            layer: self,
            place,
        }
    }
}

/// A layer prints as its one word, as `joining`. (Written out: what a derive prints no contract says.)
impl fmt::Display for Layer {
    ghost output = { λ layer. Some (layer_word layer) };

    fn fmt<W: fmt::Write>(&self, f: &mut fmt::Formatter<W>) -> fmt::Result {
        let word = match self {
            Layer::Joining => "joining",
            Layer::Text => "text",
            Layer::Plan => "plan",
            Layer::Plant => "plant",
            Layer::Run => "run",
        };
        write!(f, "{word}")
    }
}
