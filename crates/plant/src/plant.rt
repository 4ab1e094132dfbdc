//! The interface of a plant.
ghost use Rattle.std.specs.Prelude.{◌≡◌};
ghost use Rattle.plant.specs.Belts.{Belt, move_at, move_count, outcome_at, outcome_count};
ghost use Rattle.plant.specs.Laws.{LawfulBelt};

/// The most states that a plant has.
pub const MOST_STATES: u16 = 4_096;

/// The most moves that a state has.
pub const MOST_MOVES: u8 = 16;

/// The greatest cost of a move, in units.
pub const GREATEST_COST: u16 = 1_000;

/// The most outcomes that a move has.
pub const MOST_OUTCOMES: u8 = 16;

/// A plant: a belt that can be read. (The field calls it a stochastic shortest-path problem.) States, moves and
/// outcomes are numbered from 0. A number outside the belt reads as 0, and as no goal; a goal has no moves. (0 and not an
/// `Option`, by a rule of the project: a reading has an answer for every number. A state and a move's number are two
/// parameters: a struct of them would be built for each reading, and taken apart again by each definition.)
pub trait Plant {
    // the belt that the plant stands for
    ghost meaning: { Self → Belt };

    // its bounds, which every implementation proves
    ghost lawful: { (plant : Self) → LawfulBelt (meaning plant) };

    /// The number of states, 1 to 4,096.
    fn states(&self) -> u16
        ensures { result ≡ (meaning self.now).count };

    /// The state in which emptying starts.
    fn start(&self) -> u16
        ensures { result ≡ (meaning self.now).start };

    /// Whether the belt is empty in this state.
    fn is_goal(&self, state: u16) -> bool
        ensures { result ≡ (meaning self.now).goal state };

    /// The number of moves of a state.
    fn move_count(&self, state: u16) -> u8
        ensures { result ≡ move_count (meaning self.now) state };

    /// The cost of a move, in units.
    fn cost(&self, state: u16, number: u8) -> u16
        ensures { result ≡ (move_at (meaning self.now) state number).cost };

    /// The number of outcomes of a move.
    fn outcome_count(&self, state: u16, number: u8) -> u8
        ensures { result ≡ outcome_count (meaning self.now) state number };

    /// The state that an outcome of a move leads to.
    fn outcome_state(&self, state: u16, number: u8, outcome: u8) -> u16
        ensures { result ≡ (outcome_at (meaning self.now) state number outcome).state };

    /// The weight of an outcome of a move.
    fn outcome_weight(&self, state: u16, number: u8, outcome: u8) -> u8
        ensures { result ≡ (outcome_at (meaning self.now) state number outcome).weight };
}
