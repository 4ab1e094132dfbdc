//! Whether two plants are the same: generic code that rests on the readings and the bounds alone.
ghost use Rattle.std.specs.Prelude.{◌≡◌, Decides};
ghost use Rattle.plant.specs.Alike.{AlikeSame};
ghost use Rattle.plant.specs.Belts.{move_at, outcome_at};

use crate::plant::Plant;

/// Whether two plants stand for the same belt, by reading both through.
#[tactic(auto, using(crate::proofs::Compared::alike_same))]
pub fn alike<P: Plant, Q: Plant>(one: &P, other: &Q) -> bool
    ensures answer { Decides result (P.meaning one.now ≡ Q.meaning other.now) }
    ensures law { AlikeSame }
{
    same_belt(one, other)
}

// Whether two plants have as many states, the same start, and the same states.
fn same_belt<P: Plant, Q: Plant>(one: &P, other: &Q) -> bool
    ensures { Decides result (P.meaning one.now ≡ Q.meaning other.now) }
{
    let count = one.states();
    count == other.states()
        && one.start() == other.start()
        && (0..count).all(|state| same_state(one, other, state))
}

// Whether a state is a goal in both or in none, and has the same moves.
fn same_state<P: Plant, Q: Plant>(one: &P, other: &Q, state: u16) -> bool
    ensures { Decides result (((P.meaning one.now).goal state ≡ (Q.meaning other.now).goal state) × ((P.meaning one.now).moves state ≡ (Q.meaning other.now).moves state)) }
{
    let count = one.move_count(state);
    one.is_goal(state) == other.is_goal(state)
        && count == other.move_count(state)
        && (0..count).all(|number| same_move(one, other, state, number))
}

// Whether a move costs the same and has the same outcomes.
fn same_move<P: Plant, Q: Plant>(one: &P, other: &Q, state: u16, number: u8) -> bool
    ensures { Decides result (move_at (P.meaning one.now) state number ≡ move_at (Q.meaning other.now) state number) }
{
    let count = one.outcome_count(state, number);
    one.cost(state, number) == other.cost(state, number)
        && count == other.outcome_count(state, number)
        && (0..count).all(|outcome| same_outcome(one, other, state, number, outcome))
}

// Whether an outcome leads to the same state by the same weight.
fn same_outcome<P: Plant, Q: Plant>(one: &P, other: &Q, state: u16, number: u8, outcome: u8) -> bool
    ensures { Decides result (outcome_at (P.meaning one.now) state number outcome ≡ outcome_at (Q.meaning other.now) state number outcome) }
{
    one.outcome_state(state, number, outcome) == other.outcome_state(state, number, outcome)
        && one.outcome_weight(state, number, outcome)
            == other.outcome_weight(state, number, outcome)
}
