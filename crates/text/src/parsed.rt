//! What a reading answers.

/// A value that was read, and the place after it.
#[derive(Clone, Copy, PartialEq, Eq, Debug)]
pub struct Parsed<T> {
    /// The value.
    pub value: T,
    /// The place after it.
    pub next: usize,
}
