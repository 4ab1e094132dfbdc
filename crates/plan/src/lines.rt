//! The lines of a plan text behind the first one.
ghost use Rattle.std.specs.Prelude.{◌≡◌, ◌-◌, ◌^◌, ◌<◌, ◌≤◌, OnOk};
ghost use Rattle.plan.specs.Faults.{plan_refusal};
ghost use Rattle.plan.specs.Forms.{grow_all, grow_move};
ghost use Rattle.plan.specs.Lines.{body_at, due_at, front_at, grow_line, line_at, lines_at};
ghost use Rattle.plan.specs.Walk.{Leaves, put_all, put_line, put_move, walked};
ghost use Rattle.refusal.specs.Told.{told};

use crate::counts::Counts;
use crate::fault::PlanFault;
use crate::forms::open_at;
use crate::openings::{Opening, opening_at};
use crate::records::StateRecord;
use crate::rows::{MoveForm, write_row};
use crate::tables::Tables;
use crate::walk::{Past, Source};
use text::{Parsed, Sign, number_at, sign_at};

impl Source<'_> {
    // The lines of all states, read and written.
    #[tactic(auto, using(crate::proofs::Walked::line_refused))]
    pub(crate) fn write_lines(&self, from: Past, tables: &mut Tables) -> Result<Past, PlanFault>
        ensures { Leaves (told plan_refusal result) tables.old tables.new (walked (grow_all grow_line) (put_all grow_line put_line) (lines_at self.now.limits.states self.now.text.now self.now.limits from.used from.next) from.used) }
    {
        let mut past = from;
        for _line in 0..self.limits.states {
            past = self.write_line(past, tables)?;
        }
        Ok(past)
    }

    // The line of the state that is due, read and written.
    fn write_line(&self, from: Past, tables: &mut Tables) -> Result<Past, PlanFault>
        ensures { Leaves (told plan_refusal result) tables.old tables.new (walked grow_line put_line (line_at self.now.text.now self.now.limits from.used from.next) from.used) }
    {
        let front = self.front_at(from)?;
        let next = front.next;
        let used = from.used;
        let past = self.write_body(front.value, Past { used, next }, tables)?;
        let next = sign_at(self.text, past.next, Sign::Feed)?;
        let state = StateRecord {
            first: used.moves,
            end: past.used.moves,
        };
        tables.put_state(used.states, state);
        let used = Counts {
            states: used.states + 1,
            ..past.used
        };
        Ok(Past { used, next })
    }

    // What stands behind the number of a state, read and written.
    fn write_body(&self, word: Opening, from: Past, tables: &mut Tables) -> Result<Past, PlanFault>
        ensures { Leaves (told plan_refusal result) tables.old tables.new (walked (grow_all grow_move) (put_all grow_move put_move) (body_at word self.now.text.now self.now.limits from.used from.next) from.used) }
    {
        match word {
            Opening::Goal => {
                let next = sign_at(self.text, from.next, Sign::Close)?;
                Ok(Past { next, ..from })
            }
            Opening::State => write_row::<MoveForm>(self, from, tables),
        }
    }

    // A line up to the number of its state.
    fn front_at(&self, from: Past) -> Result<Parsed<Opening>, PlanFault>
        ensures answer { told plan_refusal result ≡ front_at self.now.text.now self.now.limits from.used from.next }
        ensures free { OnOk result (from.used.states < 2 ^ 64 - 1) }
    {
        let due = from.used.states;
        let inside = open_at(self.text, from.next, due, self.limits.room.states)?;
        let opening = opening_at(self.text, inside)?;
        let first = sign_at(self.text, opening.next, Sign::Space)?;
        let number = due_at(self.text, first, due)?;
        Ok(Parsed {
            value: opening.value,
            next: number.next,
        })
    }
}

// The number of the state that is due. (A function beside `state_at`: one over the test would state its answer through the
// contract of a closure.)
fn due_at(text: &[u8], at: usize, due: usize) -> Result<Parsed<u64>, PlanFault>
    ensures { told plan_refusal result ≡ due_at due text.now at }
{
    let read = number_at(text, at)?;
    // A cast to a wider type, for which there is no `From`.
    if read.value == due as u64 {
        Ok(read)
    } else {
        Err(PlanFault::State(at))
    }
}
