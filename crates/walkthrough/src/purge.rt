//! A way to purge a belt, and its price.
ghost use Rattle.std.specs.Prelude.{◌≡◌};
ghost use Rattle.joining.specs.Faults.{joining_refusal};
ghost use Rattle.refusal.specs.Told.{told};
ghost use Rattle.walkthrough.specs.Price.{priced};

use joining::{Joining, JoiningFault};

/// One unit of cost, in ticks.
pub const TICKS_PER_UNIT: u32 = 1_024;

/// A way to purge the belt: one move with its outcomes.
#[derive(Clone, Copy)]
pub struct Purge<'a> {
    /// The cost, in units.
    pub cost: u16,
    /// How often each outcome comes, beside the others.
    pub weights: &'a [u8],
    /// The figure of the state that each outcome leads to.
    pub figures: &'a [u32],
}

impl Purge<'_> {
    /// The price in ticks: the cost, and what the outcomes' figures join to.
    pub fn price<J: Joining>(&self, joining: &J) -> Result<u32, JoiningFault>
        ensures { told joining_refusal result ≡ priced (J.meaning joining.now) self.now.cost self.now.weights.now self.now.figures.now }
    {
        let figure = joining.join(self.weights, self.figures)?;
        Ok(TICKS_PER_UNIT * u32::from(self.cost) + figure)
    }
}
