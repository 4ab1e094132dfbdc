//! The three tables that a plan is written into.
ghost use Rattle.std.specs.Prelude.{◌≡◌, slice_set};
ghost use Rattle.plan.specs.Tables.{Becomes, held, room_of, with_move, with_outcome, with_state};

use crate::counts::Counts;
use crate::records::{MoveRecord, OutcomeRecord, StateRecord};

/// Three tables, lent for writing. A record whose place lies past the end of its table is not written. (Each table is the
/// caller's memory, so a walk over them says in its contract that they stay the same three.)
#[derive(Drop)]
pub struct Tables<'a> {
    /// The table of states.
    pub states: &'a mut [StateRecord],
    /// The table of moves.
    pub moves: &'a mut [MoveRecord],
    /// The table of outcomes.
    pub outcomes: &'a mut [OutcomeRecord],
}

impl Tables<'_> {
    // How many places the tables have.
    pub(crate) fn room(&self) -> Counts
        ensures { result ≡ room_of (held self.now) }
    {
        Counts {
            states: self.states.len(),
            moves: self.moves.len(),
            outcomes: self.outcomes.len(),
        }
    }

    // Writes a state at a place. (A method for each table: a generic one would need a trait that tells a record's table,
    // with as much code for each.)
    pub(crate) fn put_state(&mut self, place: usize, state: StateRecord)
        ensures { Becomes self.old self.new (with_state (held self.old) place state) }
    {
        put(self.states, place, state);
    }

    // Writes a move at a place.
    pub(crate) fn put_move(&mut self, place: usize, chosen: MoveRecord)
        ensures { Becomes self.old self.new (with_move (held self.old) place chosen) }
    {
        put(self.moves, place, chosen);
    }

    // Writes an outcome at a place.
    pub(crate) fn put_outcome(&mut self, place: usize, outcome: OutcomeRecord)
        ensures { Becomes self.old self.new (with_outcome (held self.old) place outcome) }
    {
        put(self.outcomes, place, outcome);
    }
}

// A record of a table, which is written field by field, by a rule of the project: the code names each field that it writes.
trait Record: Copy {
    // Takes over the fields of another record.
    fn write(&mut self, other: Self)
        ensures { self.new ≡ other };
}

impl Record for StateRecord {
    fn write(&mut self, other: StateRecord) {
        self.first = other.first;
        self.end = other.end;
    }
}

impl Record for MoveRecord {
    fn write(&mut self, other: MoveRecord) {
        self.cost = other.cost;
        self.first = other.first;
        self.end = other.end;
    }
}

impl Record for OutcomeRecord {
    fn write(&mut self, other: OutcomeRecord) {
        self.state = other.state;
        self.weight = other.weight;
    }
}

// Writes a record at a place of its table; past the table's end nothing is written. (By index: through `get_mut` the check
// does not find that the other records stay.)
fn put<R: Record>(table: &mut [R], place: usize, written: R)
    ensures { table.new ≡ slice_set table.old place written }
{
    if place < table.len() {
        table[place].write(written);
    }
}
