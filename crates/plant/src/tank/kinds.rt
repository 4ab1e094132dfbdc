//! The kinds of moves and outcomes that a tank line has.

// A move of a state.
#[derive(Clone, Copy, PartialEq, Eq, Debug)]
pub(crate) enum TankMove {
    // The tank fills by a level.
    Rest,
    // So many jets.
    Jets(u8),
}

// An outcome of a move.
#[derive(Clone, Copy, PartialEq, Eq, Debug)]
pub(crate) enum TankOutcome {
    // The tank has filled by a level.
    Rested,
    // So many jets have freed so many pieces.
    Freed(u8, u8),
}
