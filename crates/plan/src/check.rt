//! The check of a whole plan text, and the writing of its records.
ghost use Rattle.std.specs.Prelude.{◌≡◌};
ghost use Rattle.plan.specs.Accepted.{ReadsFormat};
ghost use Rattle.plan.specs.Faults.{plan_refusal};
ghost use Rattle.plan.specs.Lines.{head_of, read_plan};
ghost use Rattle.plan.specs.Records.{records_after};
ghost use Rattle.plan.specs.Tables.{SameTables, held, room_of};
ghost use Rattle.plan.specs.Walk.{Leaves, read_whole};
ghost use Rattle.refusal.specs.Told.{and_then, answered, told};

use crate::counts::Counts;
use crate::fault::PlanFault;
use crate::head::head_at;
use crate::records::PlanHead;
use crate::tables::Tables;
use crate::walk::{Limits, Past, Source};
use text::{LONGEST_TEXT, TextFault};

/// Checks a whole plan text against tables with so much room, and writes nothing.
#[tactic(auto, using(crate::proofs::Accepted::walk_told, crate::proofs::Accepted::reads_format))]
pub fn check_plan(text: &[u8], room: Counts) -> Result<PlanHead, PlanFault>
    ensures answer { told plan_refusal result ≡ and_then (read_plan text.now room) (λ p. answered (head_of p)) }
    ensures format { ReadsFormat text.now room }
{
    let mut nowhere = Tables {
        states: &mut [],
        moves: &mut [],
        outcomes: &mut [],
    };
    walk(text, room, &mut nowhere)
}

/// Checks a whole plan text against the tables and then writes its records, each table from place 0. A refused text
/// changes nothing.
#[tactic(auto, using(crate::proofs::Accepted::walk_told))]
pub fn fill(text: &[u8], tables: &mut Tables) -> Result<PlanHead, PlanFault>
    ensures answer { told plan_refusal result ≡ and_then (read_plan text.now (room_of (held tables.old))) (λ p. answered (head_of p)) }
    ensures held { held tables.new ≡ records_after (read_plan text.now (room_of (held tables.old))) (held tables.old) }
    ensures same { SameTables tables.new tables.old }
{
    let room = tables.room();
    check_plan(text, room)?;
    walk(text, room, tables)
}

// Walks through a whole text, and writes each record that its table has a place for as it comes.
fn walk(text: &[u8], room: Counts, tables: &mut Tables) -> Result<PlanHead, PlanFault>
    ensures { Leaves (told plan_refusal result) tables.old tables.new (read_whole (read_plan text.now room)) }
{
    if text.len() > LONGEST_TEXT {
        return Err(PlanFault::Text(TextFault::TooLong));
    }
    let head = head_at(text)?;
    let limits = Limits {
        states: head.value.count,
        room,
    };
    let from = Past {
        used: Counts::unused(),
        next: head.next,
    };
    let past = Source { text, limits }.write_lines(from, tables)?;
    if past.next < text.len() {
        return Err(PlanFault::Text(TextFault::Byte(past.next)));
    }
    Ok(head.value)
}
