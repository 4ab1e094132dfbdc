//! Loading a plan text into the caller's tables.
ghost use Rattle.std.specs.Prelude.{◌≡◌};
ghost use Rattle.plan.specs.Faults.{plan_refusal};
ghost use Rattle.plan.specs.Lines.{head_of, read_plan};
ghost use Rattle.plan.specs.Records.{records_after};
ghost use Rattle.plan.specs.Tables.{SameTables, held, room_of};
ghost use Rattle.refusal.specs.Told.{and_then, answered, told};
ghost use Rattle.tables.specs.Loads.{Loads};

use plan::{PlanFault, PlanHead, Tables, fill};

/// Loads a plan text: checks it whole against the tables, and then writes its records, each table from place 0. It
/// answers the count and the start. A refused text changes nothing.
#[tactic(auto, using(crate::proofs::Meaning::loads))]
pub fn load(text: &[u8], tables: &mut Tables) -> Result<PlanHead, PlanFault>
    ensures answer { told plan_refusal result ≡ and_then (read_plan text.now (room_of (held tables.old))) (λ p. answered (head_of p)) }
    ensures tables { held tables.new ≡ records_after (read_plan text.now (room_of (held tables.old))) (held tables.old) }
    ensures means { Loads text.now (held tables.old) (told plan_refusal result) (held tables.new) }
    ensures same { SameTables tables.new tables.old }
{
    fill(text, tables)
}
