//! The shape that every refusal of the planner has: a number, the layer that says no, and a place.

#![tactic(auto)]

mod fault;
mod layer;
mod refusal;

pub use fault::Fault;
pub use layer::Layer;
pub use refusal::Refusal;

#[cfg(test)]
mod tests;
