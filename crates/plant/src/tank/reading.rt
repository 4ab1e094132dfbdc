//! A tank line is a plant.
ghost use Rattle.std.specs.Prelude.{◌≡◌};
ghost use Rattle.plant.specs.Tank.{most_jets};
ghost use Rattle.plant.specs.TankKinds.{FoundMove, FoundOutcome};
ghost use Rattle.plant.specs.TankLaid.{belt_of};
ghost use Rattle.plant.specs.TankLawful.{line_lawful};

use crate::plant::Plant;
use crate::tank::kinds::{TankMove, TankOutcome};
use crate::tank::line::{MOST_JETS, TankLine};
use crate::tank::weights::stored_weight;

impl TankLine {
    // The move at a number of a state, where there is one.
    fn move_at(&self, state: u16, number: u8) -> Option<TankMove>
        ensures { FoundMove self.now state number result }
    {
        if number >= self.move_count(state) {
            return None;
        }
        match number {
            0 => Some(TankMove::Rest),
            jets => Some(TankMove::Jets(jets)),
        }
    }

    // The outcome at a number of a move, where there is one.
    #[tactic(auto, using(crate::proofs::TankFound::found_freed))]
    fn outcome_at(&self, state: u16, number: u8, outcome: u8) -> Option<TankOutcome>
        ensures { FoundOutcome self.now state number outcome result }
    {
        match self.move_at(state, number)? {
            TankMove::Rest if outcome == 0 => Some(TankOutcome::Rested),
            TankMove::Jets(jets) if outcome <= jets => Some(TankOutcome::Freed(jets, outcome)),
            _ => None,
        }
    }
}

// The most jets at once where so many pieces are stuck and the tank stands at this level. (The cast loses nothing, as the
// check proves.)
fn most_jets(pieces: u16, level: u16) -> u8
    ensures { result ≡ most_jets pieces level }
{
    pieces.min(level).min(MOST_JETS) as u8
}

/// A tank line reads by the pieces and the level of each state.
impl Plant for TankLine {
    ghost meaning = { belt_of };

    ghost lawful = { line_lawful };

    fn states(&self) -> u16 {
        (self.pieces + 1) * (self.levels + 1)
    }

    fn start(&self) -> u16 {
        self.state(self.pieces, self.levels)
    }

    fn is_goal(&self, state: u16) -> bool {
        self.pieces_at(state) == 0
    }

    #[tactic(auto, using(crate::specs::TankLawful::count_stuck))]
    fn move_count(&self, state: u16) -> u8 {
        let pieces = self.pieces_at(state);
        if pieces < 1 || pieces > self.pieces {
            return 0;
        }
        most_jets(pieces, self.level_at(state)) + 1
    }

    fn cost(&self, state: u16, number: u8) -> u16 {
        match self.move_at(state, number) {
            None => 0,
            Some(TankMove::Rest) => self.rest,
            Some(TankMove::Jets(jets)) => self.jet * u16::from(jets),
        }
    }

    fn outcome_count(&self, state: u16, number: u8) -> u8 {
        match self.move_at(state, number) {
            None => 0,
            Some(TankMove::Rest) => 1,
            Some(TankMove::Jets(jets)) => jets + 1,
        }
    }

    fn outcome_state(&self, state: u16, number: u8, outcome: u8) -> u16 {
        let pieces = self.pieces_at(state);
        let level = self.level_at(state);
        match self.outcome_at(state, number, outcome) {
            None => 0,
            Some(TankOutcome::Rested) => self.state(pieces, (level + 1).min(self.levels)),
            Some(TankOutcome::Freed(jets, freed)) => {
                self.state(pieces - u16::from(freed), level - u16::from(jets))
            }
        }
    }

    fn outcome_weight(&self, state: u16, number: u8, outcome: u8) -> u8 {
        match self.outcome_at(state, number, outcome) {
            None => 0,
            Some(TankOutcome::Rested) => 1,
            Some(TankOutcome::Freed(jets, freed)) => stored_weight(jets, freed),
        }
    }
}
