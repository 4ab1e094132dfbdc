//! A plant that reads three tables.
ghost use Rattle.std.specs.Prelude.{◌≡◌};
ghost use Rattle.tables.specs.Clamped.{moves_in, outcomes_in, table_belt};
ghost use Rattle.tables.specs.ClampedLawful.{table_lawful};
ghost use Rattle.tables.specs.Found.{FoundMove, FoundOutcome, FoundState};
ghost use Rattle.tables.specs.Loads.{MakesPlan};
ghost use Rattle.tables.specs.Made.{belt_of, records_of};

use crate::places::record_at;
use plan::{MoveRecord, OutcomeRecord, PlanHead, StateRecord};
use plant::{GREATEST_COST, MOST_MOVES, MOST_OUTCOMES, MOST_STATES, Plant};

/// A plant whose states, moves and outcomes stand in three tables. Whatever they hold, each number is brought within
/// a plant's bounds as it is read, and a place past a table's end holds zeros.
#[derive(Clone, Copy)]
pub struct TablePlant<'a> {
    head: PlanHead,
    states: &'a [StateRecord],
    moves: &'a [MoveRecord],
    outcomes: &'a [OutcomeRecord],
}

impl<'a> TablePlant<'a> {
    /// The plant of a count, a start and three tables, which are lent for reading.
    #[tactic(auto, using(crate::proofs::Meaning::makes_plan))]
    pub fn new(
        head: PlanHead,
        states: &'a [StateRecord],
        moves: &'a [MoveRecord],
        outcomes: &'a [OutcomeRecord],
    ) -> TablePlant<'a>
        ensures belt { belt_of result ≡ table_belt head.count head.start (records_of result) }
        ensures tables { records_of result ≡ record { states = states.now; moves = moves.now; outcomes = outcomes.now } }
        ensures means { MakesPlan head (records_of result) (belt_of result) }
    {
        TablePlant {
            head,
            states,
            moves,
            outcomes,
        }
    }

    // The record of a state, where the number is one. (This and the next two stand apart: each asks the one before, and
    // tests another number.)
    fn found_state(&self, state: u16) -> Option<StateRecord>
        ensures { FoundState self.now state result }
    {
        if state >= self.states() {
            return None;
        }
        let past = StateRecord::default();
        Some(record_at(self.states, usize::from(state), 0, past))
    }

    // The record of a move, where the state has one of that number.
    #[tactic(auto, using(crate::proofs::TablesFound::found_no_move))]
    fn found_move(&self, state: u16, number: u8) -> Option<MoveRecord>
        ensures { FoundMove self.now state number result }
    {
        let from = self.found_state(state)?;
        if number >= moves_in(from) {
            return None;
        }
        let past = MoveRecord::default();
        Some(record_at(self.moves, from.first, usize::from(number), past))
    }

    // The record of an outcome, where the move has one of that number.
    #[tactic(auto, using(crate::proofs::TablesFound::found_no_outcome))]
    fn found_outcome(&self, state: u16, number: u8, outcome: u8) -> Option<OutcomeRecord>
        ensures { FoundOutcome self.now state number outcome result }
    {
        let by = self.found_move(state, number)?;
        if outcome >= outcomes_in(by) {
            return None;
        }
        let past = OutcomeRecord::default();
        Some(record_at(self.outcomes, by.first, usize::from(outcome), past))
    }
}

// How many moves the state of a record has. (A function of its own beside the next one: what they share is one chain of
// the library's methods, and their limits are two rules. The casts lose nothing, as the check proves.)
fn moves_in(held: StateRecord) -> u8
    ensures { result ≡ moves_in held }
{
    held.end
        .saturating_sub(held.first)
        .min(usize::from(MOST_MOVES)) as u8
}

// How many outcomes the move of a record has.
fn outcomes_in(held: MoveRecord) -> u8
    ensures { result ≡ outcomes_in held }
{
    held.end
        .saturating_sub(held.first)
        .clamp(1, usize::from(MOST_OUTCOMES)) as u8
}

/// A plant of tables reads each record at its place.
impl<'a> Plant for TablePlant<'a> {
    ghost meaning = { λ p. belt_of p };

    ghost lawful = { λ p. table_lawful p.head.count p.head.start (records_of p) };

    fn states(&self) -> u16 {
        self.head.count.clamp(1, MOST_STATES)
    }

    fn start(&self) -> u16 {
        self.head.start.min(self.states() - 1)
    }

    fn is_goal(&self, state: u16) -> bool {
        self.found_state(state)
            .is_some_and(|found| moves_in(found) == 0)
    }

    fn move_count(&self, state: u16) -> u8 {
        self.found_state(state).map_or(0, moves_in)
    }

    fn cost(&self, state: u16, number: u8) -> u16 {
        self.found_move(state, number)
            .map_or(0, |found| found.cost.clamp(1, GREATEST_COST))
    }

    fn outcome_count(&self, state: u16, number: u8) -> u8 {
        self.found_move(state, number).map_or(0, outcomes_in)
    }

    fn outcome_state(&self, state: u16, number: u8, outcome: u8) -> u16 {
        let last = self.states() - 1;
        self.found_outcome(state, number, outcome)
            .map_or(0, |found| found.state.min(last))
    }

    fn outcome_weight(&self, state: u16, number: u8, outcome: u8) -> u8 {
        self.found_outcome(state, number, outcome)
            .map_or(0, |found| found.weight.max(1))
    }
}
