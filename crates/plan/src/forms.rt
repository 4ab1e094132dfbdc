//! The forms of a plan text, and the parts that they have in common.
ghost use Rattle.std.specs.Prelude.{◌≡◌, ◌-◌, ◌^◌, ◌<◌, ◌≤◌, length, IfOk, OnOk};
ghost use Rattle.plan.specs.Faults.{plan_refusal};
ghost use Rattle.plan.specs.Forms.{cost_at, keyword_at, open_at, outcome_at, state_at};
ghost use Rattle.refusal.specs.Told.{told};
ghost use Rattle.text.specs.Faults.{text_refusal};

use crate::fault::PlanFault;
use crate::records::OutcomeRecord;
use crate::walk::{Past, Source};
use plant::GREATEST_COST;
use text::{Parsed, Sign, TextFault, number_at, ranged_at, sign_at, word_at};

// The greatest weight of an outcome.
const GREATEST_WEIGHT: u64 = 255;

impl Source<'_> {
    // `(to t w)`, where a record of an outcome is due.
    pub(crate) fn outcome_at(&self, from: Past) -> Result<Parsed<OutcomeRecord>, PlanFault>
        ensures answer { told plan_refusal result ≡ outcome_at self.now.text.now self.now.limits from.used from.next }
        ensures free { OnOk result (from.used.outcomes < 2 ^ 64 - 1) }
    {
        let room = self.limits.room.outcomes;
        let inside = open_at(self.text, from.next, from.used.outcomes, room)?;
        let first = keyword_at(self.text, inside, b"to")?;
        let state = state_at(self.text, first, self.limits.states)?;
        let second = sign_at(self.text, state.next, Sign::Space)?;
        let weight = ranged_at(self.text, second, 1, GREATEST_WEIGHT)?;
        let next = sign_at(self.text, weight.next, Sign::Close)?;
        // Casts that the check proves to lose nothing; a `try_from` would add a fault that cannot come.
        let value = OutcomeRecord {
            state: state.value as u16,
            weight: weight.value as u8,
        };
        Ok(Parsed { value, next })
    }

    // `(move c`, where a record of a move is due.
    pub(crate) fn cost_at(&self, from: Past) -> Result<Parsed<u16>, PlanFault>
        ensures answer { told plan_refusal result ≡ cost_at self.now.text.now self.now.limits from.used from.next }
        ensures free { OnOk result (from.used.moves < 2 ^ 64 - 1) }
    {
        let room = self.limits.room.moves;
        let inside = open_at(self.text, from.next, from.used.moves, room)?;
        let first = keyword_at(self.text, inside, b"move")?;
        let cost = ranged_at(self.text, first, 1, u64::from(GREATEST_COST))?;
        // A cast that the check proves to lose nothing, as above.
        Ok(Parsed {
            value: cost.value as u16,
            next: cost.next,
        })
    }
}

// The number of a state, below their count.
pub(crate) fn state_at(text: &[u8], at: usize, states: u16) -> Result<Parsed<u64>, PlanFault>
    ensures answer { told plan_refusal result ≡ state_at states text.now at }
    ensures below { IfOk result (λ s. s.value < states) }
{
    let read = number_at(text, at)?;
    if read.value < u64::from(states) {
        Ok(read)
    } else {
        Err(PlanFault::State(at))
    }
}

// An opening bracket at which a record is due, of whose table `used` of `room` places are taken. (`free` says here, and in the
// three readings that ask this one, that one record more can be counted; no struct could hold it, since it is about what is
// answered.)
pub(crate) fn open_at(text: &[u8], at: usize, used: usize, room: usize) -> Result<usize, PlanFault>
    ensures answer { told plan_refusal result ≡ open_at text.now at used room }
    ensures free { OnOk result (used < 2 ^ 64 - 1) }
    ensures inside { IfOk result (λ p. p ≤ length text.now) }
{
    let inside = sign_at(text, at, Sign::Open)?;
    if used < room {
        Ok(inside)
    } else {
        Err(PlanFault::Full(at))
    }
}

// A word, and the space behind it.
pub(crate) fn keyword_at(text: &[u8], at: usize, word: &[u8]) -> Result<usize, TextFault>
    ensures { told text_refusal result ≡ keyword_at text.now at word.now }
{
    let end = word_at(text, at, word)?;
    sign_at(text, end, Sign::Space)
}
