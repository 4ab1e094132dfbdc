//! An overlay that makes every move of a plant dearer.
ghost use Rattle.std.specs.Prelude.{◌≡◌};
ghost use Rattle.plant.specs.Belts.{move_count};
ghost use Rattle.plant.specs.Faults.{plant_refusal};
ghost use Rattle.plant.specs.Surcharges.{standing, surcharge_told, surcharged};
ghost use Rattle.plant.specs.SurchargesLawful.{surcharged_lawful};
ghost use Rattle.plant.specs.SurchargesRead.{Raised, raised};
ghost use Rattle.refusal.specs.Told.{and_then, answered, told};

use crate::fault::PlantFault;
use crate::plant::{GREATEST_COST, Plant};
use crate::range::ranged;

/// The greatest surcharge, in units.
pub const GREATEST_SURCHARGE: u16 = 999;

/// A plant on which each move costs so many units more, and 1,000 at most.
#[derive(Drop)]
pub struct Surcharge<P> {
    plant: P,
    extra: u16,
}

impl<P: Plant> Surcharge<P> {
    /// The plant, with a surcharge of 0 as yet.
    pub fn new(plant: P) -> Surcharge<P>
        ensures { (result.plant ≡ plant) × (result.extra ≡ 0) }
    {
        Surcharge { plant, extra: 0 }
    }

    /// Puts a surcharge of 0 to 999 units in the place of the one before. Any other is refused, and nothing changes.
    pub fn charge(&mut self, extra: u64) -> Result<(), PlantFault>
        ensures answer { told plant_refusal result ≡ and_then (surcharge_told extra) (λ _. answered tt) }
        ensures extra { self.new.extra ≡ standing (surcharge_told extra) self.old.extra }
        ensures plant { self.new.plant ≡ self.old.plant }
    {
        self.extra = ranged(0, 0, GREATEST_SURCHARGE, extra)?;
        Ok(())
    }

    // How many moves a state has: as many as below.
    #[tactic(auto, using(crate::specs::SurchargesLawful::moves_kept))]
    fn moves(&self, state: u16) -> u8
        ensures { result ≡ move_count (surcharged self.now.extra (P.meaning self.now.plant)) state }
    {
        self.plant.move_count(state)
    }

    // The number that a move has below: the same.
    #[tactic(auto, using(crate::proofs::SurchargesRead::raised_below))]
    fn below(&self, state: u16, number: u8) -> u8
        ensures { Raised self.now.extra (P.meaning self.now.plant) state number result }
    {
        number
    }

    // What a cost below comes to.
    fn raised(&self, cost: u16) -> u16
        ensures { result ≡ raised self.now.extra cost }
    {
        match cost {
            0 => 0,
            some => some.saturating_add(self.extra).min(GREATEST_COST),
        }
    }
}

/// A surcharge reads as the plant below, each cost raised. (It hands on the other readings itself, as a barring does: one
/// implementation for both would need a third trait with the same readings and laws.)
impl<P: Plant> Plant for Surcharge<P> {
    ghost meaning = { λ p. surcharged p.extra (P.meaning p.plant) };

    ghost lawful = { λ p. surcharged_lawful p.extra (P.meaning p.plant) (P.lawful p.plant) };

    fn states(&self) -> u16 {
        self.plant.states()
    }

    fn start(&self) -> u16 {
        self.plant.start()
    }

    fn is_goal(&self, state: u16) -> bool {
        self.plant.is_goal(state)
    }

    fn move_count(&self, state: u16) -> u8 {
        self.moves(state)
    }

    fn cost(&self, state: u16, number: u8) -> u16 {
        self.raised(self.plant.cost(state, self.below(state, number)))
    }

    fn outcome_count(&self, state: u16, number: u8) -> u8 {
        self.plant.outcome_count(state, self.below(state, number))
    }

    fn outcome_state(&self, state: u16, number: u8, outcome: u8) -> u16 {
        self.plant
            .outcome_state(state, self.below(state, number), outcome)
    }

    fn outcome_weight(&self, state: u16, number: u8, outcome: u8) -> u8 {
        self.plant
            .outcome_weight(state, self.below(state, number), outcome)
    }
}
