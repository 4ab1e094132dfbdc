//! How many records there are.
ghost use Rattle.std.specs.Prelude.{◌≡◌};
ghost use Rattle.plan.specs.Lines.{unused};

/// A number of records in each of the three tables: how many are used, or how many places there are.
#[derive(Clone, Copy, PartialEq, Eq, Debug, Default)]
pub struct Counts {
    /// Records of states.
    pub states: usize,
    /// Records of moves.
    pub moves: usize,
    /// Records of outcomes.
    pub outcomes: usize,
}

impl Counts {
    // No record. (The default under a contract of its own: at the walk the check does not find that it is `unused`.)
    pub(crate) fn unused() -> Counts
        ensures { result ≡ unused }
    {
        Counts::default()
    }
}
