//! What a plan is held as: a record for each state, each move and each outcome, in three tables. (A record names places
//! of the next table, since the caller lends the memory and the libraries use no heap. A state and a move each
//! have `first` and `end`: a struct of the two would be one name more wherever they are read.)

/// A state: its moves stand in the table of moves, from the place `first` up to the place before `end`.
#[derive(Clone, Copy, PartialEq, Eq, Debug, Default)]
pub struct StateRecord {
    /// The place of the first move.
    pub first: usize,
    /// The place after the last move; a goal has none, so that it equals `first`.
    pub end: usize,
}

/// A move: its outcomes stand in the table of outcomes, from the place `first` up to the place before `end`.
#[derive(Clone, Copy, PartialEq, Eq, Debug, Default)]
pub struct MoveRecord {
    /// The cost, in units.
    pub cost: u16,
    /// The place of the first outcome.
    pub first: usize,
    /// The place after the last outcome.
    pub end: usize,
}

/// An outcome: the state that it leads to, and its weight.
#[derive(Clone, Copy, PartialEq, Eq, Debug, Default)]
pub struct OutcomeRecord {
    /// The state.
    pub state: u16,
    /// The weight beside the move's other outcomes.
    pub weight: u8,
}

/// What the first line of a plan says of its states.
#[derive(Clone, Copy, PartialEq, Eq, Debug)]
pub struct PlanHead {
    /// How many states there are.
    pub count: u16,
    /// The state in which emptying starts.
    pub start: u16,
}
