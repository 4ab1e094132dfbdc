//! A tank line, and what stands at each of its numbers.
ghost use Rattle.std.specs.Prelude.{◌≡◌, ◌+◌, ◌/◌, ◌%◌, ◌≤◌, IfSome};
ghost use Rattle.plant.specs.Faults.{plant_refusal};
ghost use Rattle.plant.specs.Tank.{state_at, state_of, tank_told};
ghost use Rattle.refusal.specs.Told.{told_as};

use crate::fault::PlantFault;
use crate::plant::GREATEST_COST;
use crate::range::ranged;

/// The most pieces that are stuck at the start.
pub const MOST_PIECES: u16 = 15;

/// The highest level that a tank has.
pub const MOST_LEVELS: u16 = 15;

/// The greatest cost of a jet, in units.
pub const GREATEST_JET_COST: u16 = 125;

/// The most jets of one move.
pub const MOST_JETS: u16 = 8;

/// Some pieces are stuck on the belt, and jets from a tank free them; a rest fills the tank by a level.
#[derive(Clone, Copy)]
pub struct TankLine {
    pub(crate) pieces: u16,
    pub(crate) levels: u16,
    pub(crate) rest: u16,
    pub(crate) jet: u16,
    ghost some: { (1 ≤ pieces) × (pieces ≤ 15) },
    ghost full: { (1 ≤ levels) × (levels ≤ 15) },
    ghost slow: { (1 ≤ rest) × (rest ≤ 1000) },
    ghost dear: { (1 ≤ jet) × (jet ≤ 125) },
}

impl TankLine {
    // Named here and not above: what a file names at its head stands before its structs with ghost fields.
    ghost use Rattle.plant.specs.TankLaid.{LaidOut, belt_of};

    /// The line with 1 to 15 pieces and 1 to 15 levels, where a rest costs 1 to 1,000 units and a jet 1 to 125.
    pub fn new(pieces: u64, levels: u64, rest: u64, jet: u64) -> Result<TankLine, PlantFault>
        ensures { told_as belt_of plant_refusal result ≡ tank_told pieces levels rest jet }
    {
        let pieces = ranged(0, 1, MOST_PIECES, pieces)?;
        let levels = ranged(1, 1, MOST_LEVELS, levels)?;
        let rest = ranged(2, 1, GREATEST_COST, rest)?;
        let jet = ranged(3, 1, GREATEST_JET_COST, jet)?;
        Ok(TankLine {
            pieces,
            levels,
            rest,
            jet,
        })
    }

    /// The state with so many pieces stuck and the tank at this level, where the line has one.
    #[tactic(auto, using(crate::proofs::TankFound::laid_out))]
    pub fn state_at(&self, pieces: u16, level: u16) -> Option<u16>
        ensures answer { result ≡ state_at self.now.pieces self.now.levels pieces level }
        ensures means { IfSome result (λ s. LaidOut self.now pieces level s) }
    {
        if pieces > self.pieces || level > self.levels {
            return None;
        }
        Some(self.state(pieces, level))
    }

    // The number of the state with so many pieces at this level.
    pub(crate) fn state(&self, pieces: u16, level: u16) -> u16
        requires { (pieces ≤ self.now.pieces) × (level ≤ self.now.levels) }
        ensures { result ≡ state_of self.now.levels pieces level }
    {
        pieces * (self.levels + 1) + level
    }

    // The pieces that are stuck in a state.
    pub(crate) fn pieces_at(&self, state: u16) -> u16
        ensures { result ≡ state / (self.now.levels + 1) }
    {
        state / (self.levels + 1)
    }

    // The tank's level in a state.
    pub(crate) fn level_at(&self, state: u16) -> u16
        ensures value { result ≡ state % (self.now.levels + 1) }
        ensures upper_bound { result ≤ self.now.levels }
    {
        state % (self.levels + 1)
    }
}
