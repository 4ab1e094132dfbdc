//! Why a text says no.
ghost use Rattle.refusal.specs.Line.{refusal_line};
ghost use Rattle.std.specs.Prelude.{Some};
ghost use Rattle.text.specs.Faults.{text_refusal};

use refusal::{Fault, Layer, Refusal};
use std::error::Error;
use std::fmt;

/// The most bytes that a text has.
pub const LONGEST_TEXT: usize = 60_000;

/// What is wrong with the bytes of a text, and where.
#[derive(Clone, Copy, PartialEq, Eq, Debug)]
pub enum TextFault {
    /// A byte, or the end of the text, that is not admitted; its place.
    Byte(usize),
    /// A number with a leading zero, or out of its range; the place of its first digit.
    Number(usize),
    /// The text has more than 60,000 bytes.
    TooLong,
}

/// The faults are refusals 2, 3 and 19 of the layer text. (No `From`: see the trait.)
impl Fault for TextFault {
    ghost meaning = { text_refusal };

    fn refusal(&self) -> Refusal {
        let (number, place) = match self {
            TextFault::Byte(place) => (2, *place),
            TextFault::Number(place) => (3, *place),
            TextFault::TooLong => (19, LONGEST_TEXT),
        };
        Layer::Text.refusal(number, place)
    }
}

/// A fault prints the line of its refusal. (Written out in each layer: what a derive
/// prints no contract says, and one impl for all faults Rust refuses.)
impl fmt::Display for TextFault {
    ghost output = { λ fault. Some (refusal_line (text_refusal fault)) };

    fn fmt<W: fmt::Write>(&self, f: &mut fmt::Formatter<W>) -> fmt::Result {
        let refusal = self.refusal();
        write!(f, "{refusal}")
    }
}

/// A fault can be handed on by `?` as any error.
impl Error for TextFault {}
