//! Plants: belts that can be read, state by state and move by move.
//!
//! [`Plant`] is the interface, and [`TankLine`] a plant of this library. [`Surcharge`] and [`Barring`] stand over any
//! plant and change how it reads. [`alike`] tells whether two plants are the same.

#![tactic(auto)]

mod barring;
mod bars;
mod compare;
mod fault;
mod plant;
mod range;
mod surcharge;
mod tank;

pub use barring::Barring;
pub use bars::{Bar, MOST_BARS};
pub use compare::alike;
pub use fault::PlantFault;
pub use plant::{GREATEST_COST, MOST_MOVES, MOST_OUTCOMES, MOST_STATES, Plant};
pub use surcharge::{GREATEST_SURCHARGE, Surcharge};
pub use tank::line::{GREATEST_JET_COST, MOST_JETS, MOST_LEVELS, MOST_PIECES, TankLine};

#[cfg(test)]
mod tests;
