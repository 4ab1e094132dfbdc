//! An overlay that bars moves of a plant.
ghost use Rattle.std.specs.Prelude.{◌≡◌, ◌<◌, ◌≤◌, [], length, OnOk};
ghost use Rattle.plant.specs.Bars.{Closes, bar_told, moved_up, open_moves, open_pair, pairs_after};
ghost use Rattle.plant.specs.BarsLawful.{barring_lawful};
ghost use Rattle.plant.specs.Belts.{move_at};
ghost use Rattle.plant.specs.Faults.{plant_refusal};
ghost use Rattle.refusal.specs.Told.{told};

use crate::bars::{Bar, MOST_BARS, open_at, open_count, shut_in};
use crate::fault::PlantFault;
use crate::plant::Plant;
use arrayvec::ArrayVec;

/// A plant without some of its moves; the others move up in order. (Its contracts speak of the bars and of the belt below
/// apart, as the definitions that they share do: a call that bars changes the one and keeps the other.)
#[derive(Drop)]
pub struct Barring<P> {
    plant: P,
    bars: ArrayVec<Bar, MOST_BARS>,
    // known of every barring; of an `ArrayVec` a caller learns its items alone
    ghost few: { length bars.items ≤ 16 },
}

impl<P: Plant> Barring<P> {
    // Named here and not above: what a file names at its head stands before its structs with ghost fields.
    ghost use Rattle.plant.specs.BarsHeld.{belt_left, move_found};

    /// The plant, with no bar as yet.
    pub fn new(plant: P) -> Barring<P>
        ensures { (result.plant ≡ plant) × (result.bars.items ≡ []) }
    {
        Barring {
            plant,
            bars: ArrayVec::new(),
        }
    }

    /// Bars one move, by its number in the plant below. It is refused, and nothing changes, where the plant below has
    /// no such move or it is barred already, then where its state has no other move left, then where sixteen are held.
    pub fn bar(&mut self, state: u16, number: u8) -> Result<(), PlantFault>
        ensures answer { told plant_refusal result ≡ bar_told self.old.bars.items (P.meaning self.old.plant) state number }
        ensures bars { self.new.bars.items ≡ pairs_after (told plant_refusal result) self.old.bars.items state number }
        ensures plant { self.new.plant ≡ self.old.plant }
        ensures means { Closes (told plant_refusal result) (belt_left P.meaning self.old) (belt_left P.meaning self.new) state (moved_up self.old.bars.items state number) }
    {
        self.check_bar(state, number)?;
        self.bars.push(Bar { state, number });
        Ok(())
    }

    /// The bars that are held, in the order in which they were made.
    pub fn bars(&self) -> &[Bar]
        ensures held { result.now ≡ self.now.bars.items }
        ensures few { length result.now ≤ 16 }
    {
        self.bars.as_slice()
    }

    // Whether one move more can be barred; if not, why.
    fn check_bar(&self, state: u16, number: u8) -> Result<(), PlantFault>
        ensures answer { told plant_refusal result ≡ bar_told self.now.bars.items (P.meaning self.now.plant) state number }
        ensures room { OnOk result (length self.now.bars.items < 16) }
    {
        if !self.is_open(state, number) {
            return Err(PlantFault::Unknown(state));
        }
        if self.open_count(state) == 1 {
            return Err(PlantFault::LastMove(state));
        }
        if self.bars.is_full() {
            return Err(PlantFault::Full);
        }
        Ok(())
    }

    // Whether the plant below has this move, and it is not barred.
    fn is_open(&self, state: u16, number: u8) -> bool
        ensures { result ≡ open_pair self.now.bars.items (P.meaning self.now.plant) state number }
    {
        let shut = shut_in(&self.bars, state);
        number < self.plant.move_count(state) && !shut[usize::from(number)]
    }

    // How many moves of a state are not barred.
    #[tactic(auto, using(crate::proofs::OpenMoves::open_length))]
    fn open_count(&self, state: u16) -> u8
        ensures { result ≡ length (open_moves self.now.bars.items (P.meaning self.now.plant) state) }
    {
        open_count(&shut_in(&self.bars, state), self.plant.move_count(state))
    }

    // The number that a move has below: the open move with so many open ones before it, or itself where none is open.
    #[tactic(auto, using(crate::proofs::OpenMoves::found_all, crate::proofs::OpenMoves::found_open, crate::proofs::OpenMoves::found_some, crate::proofs::OpenMoves::open_none, crate::proofs::OpenMoves::open_first))]
    #[inline]
    fn below(&self, state: u16, number: u8) -> Option<u8>
        ensures { move_at (belt_left P.meaning self.now) state number ≡ move_found (P.meaning self.now.plant) state result }
    {
        let shut = shut_in(&self.bars, state);
        let count = self.plant.move_count(state);
        match open_at(&shut, count, usize::from(number)) {
            Some(below) => Some(below),
            None => open_at(&shut, count, 0).is_none().then_some(number),
        }
    }
}

/// A barring reads as the plant below without the barred moves. (It hands on the other readings itself, as a surcharge does:
/// one implementation for both would need a third trait with the same readings and laws.)
impl<P: Plant> Plant for Barring<P> {
    ghost use Rattle.plant.specs.BarsHeld.{belt_left};

    ghost meaning = { belt_left P.meaning };

    ghost lawful = { λ p. barring_lawful p.bars.items (P.meaning p.plant) (P.lawful p.plant) };

    fn states(&self) -> u16 {
        self.plant.states()
    }

    fn start(&self) -> u16 {
        self.plant.start()
    }

    fn is_goal(&self, state: u16) -> bool {
        self.plant.is_goal(state)
    }

    fn move_count(&self, state: u16) -> u8 {
        match self.open_count(state) {
            0 => self.plant.move_count(state),
            open => open,
        }
    }

    fn cost(&self, state: u16, number: u8) -> u16 {
        self.below(state, number)
            .map_or(0, |below| self.plant.cost(state, below))
    }

    fn outcome_count(&self, state: u16, number: u8) -> u8 {
        self.below(state, number)
            .map_or(0, |below| self.plant.outcome_count(state, below))
    }

    fn outcome_state(&self, state: u16, number: u8, outcome: u8) -> u16 {
        self.below(state, number)
            .map_or(0, |below| self.plant.outcome_state(state, below, outcome))
    }

    fn outcome_weight(&self, state: u16, number: u8, outcome: u8) -> u8 {
        self.below(state, number).map_or(
            0,
            |below| self.plant.outcome_weight(state, below, outcome),
        )
    }
}
