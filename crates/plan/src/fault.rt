//! Why a plan text says no.
ghost use Rattle.std.specs.Prelude.{◌≡◌, Some};
ghost use Rattle.plan.specs.Faults.{plan_refusal};
ghost use Rattle.plan.specs.declared.fault.PlanFault.TheVariants.{Text as in_text};
ghost use Rattle.refusal.specs.Line.{refusal_line};

use refusal::{Fault, Layer, Refusal};
use std::error::Error;
use std::fmt;
use text::TextFault;

/// What is wrong with a plan text, and where.
#[derive(Clone, Copy, PartialEq, Eq, Debug)]
pub enum PlanFault {
    /// A fault that began in the text, whole, with its place.
    Text(TextFault),
    /// A state number that is not below the count, or not the one that is due; the place of its first digit.
    State(usize),
    /// A record that finds no place in its table; the place of its opening bracket.
    Full(usize),
}

/// A fault of the text keeps its refusal; the others are refusals 4 and 5 of the layer plan. (No `From`: see the trait.)
impl Fault for PlanFault {
    ghost meaning = { plan_refusal };

    fn refusal(&self) -> Refusal {
        match self {
            PlanFault::Text(fault) => fault.refusal(),
            PlanFault::State(place) => Layer::Plan.refusal(4, *place),
            PlanFault::Full(place) => Layer::Plan.refusal(5, *place),
        }
    }
}

/// A fault prints the line of its refusal. (Written out in each layer: what a derive
/// prints no contract says, and one impl for all faults Rust refuses.)
impl fmt::Display for PlanFault {
    ghost output = { λ fault. Some (refusal_line (plan_refusal fault)) };

    fn fmt<W: fmt::Write>(&self, f: &mut fmt::Formatter<W>) -> fmt::Result {
        let refusal = self.refusal();
        write!(f, "{refusal}")
    }
}

/// A fault can be handed on by `?` as any error.
impl Error for PlanFault {}

/// A fault of the text becomes one of the plan, and is held whole.
impl From<TextFault> for PlanFault {
    ghost from_gives = { λ fault r. r ≡ in_text fault };

    fn from(fault: TextFault) -> PlanFault {
        PlanFault::Text(fault)
    }
}
