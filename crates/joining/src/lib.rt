//! Joinings: what the outcomes of one move come to.
//!
//! A joining is handed two rows, weights and figures, with one place for each outcome, and answers one figure. (The
//! field calls it the backup of a move, and a figure a value.) [`Mean`], [`Worst`] and [`Best`] are three of them.

#![tactic(auto)]

mod best;
mod extremes;
mod fault;
mod joining;
mod mean;
mod rises;
mod rows;
mod worked;
mod worst;

pub use best::Best;
pub use fault::JoiningFault;
pub use joining::Joining;
pub use mean::Mean;
pub use rises::rise;
pub use rows::{GREATEST_FIGURE, LEAST_WEIGHT, LONGEST_ROW, check_rows};
pub use worked::worked_rows;
pub use worst::Worst;

#[cfg(test)]
mod tests;
