//! Plan texts: what is wrong with one, the check of a whole text, and the records that it is held as.
//!
//! [`check_plan`] only checks a text. [`fill`] checks it whole and then writes its records into three tables.

#![tactic(auto)]

mod check;
mod counts;
mod fault;
mod forms;
mod head;
mod lines;
mod openings;
mod records;
mod rows;
mod tables;
mod walk;

pub use check::{check_plan, fill};
pub use counts::Counts;
pub use fault::PlanFault;
pub use records::{MoveRecord, OutcomeRecord, PlanHead, StateRecord};
pub use tables::Tables;
