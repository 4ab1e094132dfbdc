//! The rows of forms of a plan text: the outcomes of a move, and the moves of a state.
ghost use Rattle.std.specs.Prelude.{◌≡◌, ℕ, List};
ghost use Rattle.plan.specs.Faults.{plan_refusal};
ghost use Rattle.plan.specs.Forms.{forms_at, grow_all, grow_move, grow_outcome, move_item, outcome_item};
ghost use Rattle.plan.specs.Records.{Records};
ghost use Rattle.plan.specs.Walk.{Leaves, put_all, put_move, put_outcome, walked};
ghost use Rattle.plan.specs.declared.counts.Counts.{Counts};
ghost use Rattle.plan.specs.declared.walk.Limits.{Limits};
ghost use Rattle.plant.specs.Belts.{Move, Outcome};
ghost use Rattle.refusal.specs.Told.{Told, told};
ghost use Rattle.text.specs.declared.parsed.Parsed.{Parsed};

use crate::counts::Counts;
use crate::fault::PlanFault;
use crate::records::MoveRecord;
use crate::tables::Tables;
use crate::walk::{Past, Source};
use plant::MOST_MOVES;
use text::{Sign, is_sign, sign_at};

// The most forms of a row: a state has no more moves, and a move no more outcomes.
const LONGEST_ROW: u8 = MOST_MOVES;

/// A form of which a row is made: how one is read and written.
pub(crate) trait Form {
    // what one says
    ghost Value: { Type 0 };

    // how one is read, where so many records are used
    ghost item: { List ℕ → Limits → Counts → ℕ → Told (Parsed Value) };

    // the records that are used behind it
    ghost grow: { Counts → Value → Counts };

    // what is written of it
    ghost put: { Counts → Value → Records → Records };

    // One form, read and written.
    fn write(source: &Source, from: Past, tables: &mut Tables) -> Result<Past, PlanFault>
        ensures { Leaves (told plan_refusal result) tables.old tables.new (walked grow put (item source.now.text.now source.now.limits from.used from.next) from.used) };
}

/// An outcome of a move.
pub(crate) struct OutcomeForm;

impl Form for OutcomeForm {
    ghost Value = { Outcome };

    ghost item = { outcome_item };

    ghost grow = { grow_outcome };

    ghost put = { put_outcome };

    fn write(source: &Source, from: Past, tables: &mut Tables) -> Result<Past, PlanFault> {
        let outcome = source.outcome_at(from)?;
        let used = from.used;
        tables.put_outcome(used.outcomes, outcome.value);
        Ok(Past {
            used: Counts {
                outcomes: used.outcomes + 1,
                ..used
            },
            next: outcome.next,
        })
    }
}

/// A move of a state, with its outcomes.
pub(crate) struct MoveForm;

impl Form for MoveForm {
    ghost Value = { Move };

    ghost item = { move_item };

    ghost grow = { grow_move };

    ghost put = { put_move };

    fn write(source: &Source, from: Past, tables: &mut Tables) -> Result<Past, PlanFault> {
        let cost = source.cost_at(from)?;
        let used = from.used;
        let next = cost.next;
        let past = write_row::<OutcomeForm>(source, Past { used, next }, tables)?;
        let chosen = MoveRecord {
            cost: cost.value,
            first: used.outcomes,
            end: past.used.outcomes,
        };
        tables.put_move(used.moves, chosen);
        Ok(Past {
            used: Counts {
                moves: used.moves + 1,
                outcomes: past.used.outcomes,
                ..used
            },
            next: past.next,
        })
    }
}

// 1 to 16 forms, each behind a space, and the bracket that closes the row.
pub(crate) fn write_row<F: Form>(
    source: &Source,
    from: Past,
    tables: &mut Tables,
) -> Result<Past, PlanFault>
    ensures { Leaves (told plan_refusal result) tables.old tables.new (walked (grow_all F.grow) (put_all F.grow F.put) (forms_at (F.item source.now.text.now source.now.limits) F.grow source.now.text.now from.used from.next) from.used) }
{
    let next = sign_at(source.text, from.next, Sign::Space)?;
    let mut past = F::write(source, Past { next, ..from }, tables)?;
    for _form in 1..LONGEST_ROW {
        if !is_sign(source.text, past.next, Sign::Space) {
            break;
        }
        let next = past.next + 1;
        past = F::write(source, Past { next, ..past }, tables)?;
    }
    let next = sign_at(source.text, past.next, Sign::Close)?;
    Ok(Past { next, ..past })
}
