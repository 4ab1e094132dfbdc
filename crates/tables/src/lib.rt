//! Plans in the caller's tables: a text is loaded into them, and they are read as a plant.
//!
//! [`load`] answers the count and the start of a plan. From these and the tables [`TablePlant`] is made, which reads the
//! records where they stand and is a plant whatever they hold.

#![tactic(auto)]

mod loading;
mod made;
mod places;

pub use loading::load;
pub use made::TablePlant;
pub use plan::{MoveRecord, OutcomeRecord, PlanHead, StateRecord, Tables};
