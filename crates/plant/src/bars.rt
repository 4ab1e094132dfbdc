//! The bars that a barring holds, and which numbers they leave open.
ghost use Rattle.std.specs.Prelude.{◌≡◌, ℕ, ◌<◌, ◌≤◌, false, ◌||◌, length, slice_get, slice_index_or};
ghost use Rattle.plant.specs.Bars.{barred, bars_it};
ghost use Rattle.plant.specs.BarsHeld.{unset};

use crate::plant::MOST_MOVES;

/// The most bars that a barring holds.
pub const MOST_BARS: usize = 16;

// One flag for each number that a move can have. (By a rule of the project no reading looks through the bars anew for each
// move; the flags let it pass over them once. The cast is to a wider type; a constant cannot call `From`.)
const NUMBERS: usize = MOST_MOVES as usize;

/// A barred move: its state, and its number in the plant below.
#[derive(Clone, Copy, PartialEq, Eq, Debug, Default)]
pub struct Bar {
    /// The state.
    pub state: u16,
    /// The move's number in the plant below.
    pub number: u8,
}

// For each number of a move, whether it is barred in this state. (A bar of another state is passed over here, though `note`
// would do so too: docs/DECISIONS.md says why, of a barring's readings.)
pub(crate) fn shut_in(bars: &[Bar], state: u16) -> [bool; NUMBERS]
    ensures { (k : ℕ) → k < 16 → slice_index_or result k false ≡ barred bars.now state k }
{
    let mut shut = [false; NUMBERS];
    for bar in bars {
        if bar.state == state {
            note(&mut shut, *bar, state);
        }
    }
    shut
}

// Shuts the number of a bar, if it is of this state.
#[inline]
fn note(shut: &mut [bool; NUMBERS], bar: Bar, state: u16)
    ensures { (k : ℕ) → k < 16 → slice_index_or shut.new k false ≡ (slice_index_or shut.old k false || bars_it state k bar) }
{
    if bar.state == state && bar.number < MOST_MOVES {
        shut[usize::from(bar.number)] = true;
    }
}

// How many of the first `count` numbers are not shut. (What is counted are the shut ones, of which there are mostly few: the
// library's `filter` takes longer for a number that it hands on. The cast loses nothing, as the check proves.)
pub(crate) fn open_count(shut: &[bool; NUMBERS], count: u8) -> u8
    requires { count ≤ 16 }
    ensures { result ≡ length (unset shut.now count) }
{
    count
        - (0..count)
            .filter(|number| shut[usize::from(*number)])
            .count() as u8
}

// The number at a place among the first `count` numbers that are not shut. (A function beside the one before, since one that
// hands on an iterator of its own gets no proof. Inlined, as docs/DECISIONS.md says of a barring's readings.)
#[inline(always)]
pub(crate) fn open_at(shut: &[bool; NUMBERS], count: u8, place: usize) -> Option<u8>
    requires { count ≤ 16 }
    ensures { result ≡ slice_get (unset shut.now count) place }
{
    (0..count)
        .filter(|number| !shut[usize::from(*number)])
        .nth(place)
}
