//! The characters, the words and the numbers that a text is made of, and what is wrong with one.
//!
//! Everything is read at a place of the text, and answers with the place after it, so that a fault can say where it is.
//! (The text and the place are two parameters and no reader that holds both: so a contract is one equation between what is
//! answered and its definition. A reader that is answered would have to be translated in each contract, and one that is
//! only lent would be built anew for each place.)

#![tactic(auto)]

mod fault;
mod marks;
mod numbers;
mod parsed;
mod words;

pub use fault::{LONGEST_TEXT, TextFault};
pub use marks::{Mark, Sign, is_sign, mark_of};
pub use numbers::{number_at, ranged_at};
pub use parsed::Parsed;
pub use words::{sign_at, word_at};
