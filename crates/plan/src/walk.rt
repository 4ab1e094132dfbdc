//! Where a walk through a plan text stands.
use crate::counts::Counts;

/// How far the text is read: the records that are used by then, and the place that is read next.
#[derive(Clone, Copy)]
pub struct Past {
    /// The records that are used.
    pub used: Counts,
    /// The place that is read next.
    pub next: usize,
}

/// What the lines of a text are held to.
#[derive(Clone, Copy)]
pub struct Limits {
    /// The count of states, which every state number lies below.
    pub states: u16,
    /// The places that each table has.
    pub room: Counts,
}

/// A plan text, and what its lines are held to. (The place that is reached, and the tables, are parameters beside it: a
/// struct of all would be changed by each call, and each contract would have to say that its text and limits stay.)
#[derive(Clone, Copy)]
pub struct Source<'a> {
    /// The text.
    pub text: &'a [u8],
    /// What its lines are held to.
    pub limits: Limits,
}
