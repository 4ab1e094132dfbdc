//! The range of an argument.
ghost use Rattle.std.specs.Prelude.{◌≡◌};
ghost use Rattle.plant.specs.Faults.{plant_refusal};
ghost use Rattle.plant.specs.Ranges.{ranged};
ghost use Rattle.refusal.specs.Told.{told};

use crate::fault::PlantFault;

// An argument from `low` to `high`, or its fault. (Two numbers and no range of the library: one that takes in its
// last number may have been walked through, and a contract would have to rule that out.)
pub(crate) fn ranged(index: usize, low: u16, high: u16, value: u64) -> Result<u16, PlantFault>
    ensures { told plant_refusal result ≡ ranged index low high value }
{
    match u16::try_from(value) {
        Ok(taken) if (low..=high).contains(&taken) => Ok(taken),
        _ => Err(PlantFault::Argument(index)),
    }
}
