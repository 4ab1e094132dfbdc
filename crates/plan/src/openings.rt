//! The word that opens a line of a plan text.
ghost use Rattle.std.specs.Prelude.{◌≡◌, ℕ, ◌≤◌, List, ◌++◌, length, Some, None, codes, ◌≢◌};
ghost use Rattle.plan.specs.Lines.{opening_at, opening_word};
ghost use Rattle.refusal.specs.Told.{told};
ghost use Rattle.text.specs.Faults.{text_refusal};

use text::{Parsed, TextFault, word_at};

/// What a line is about.
#[derive(Clone, Copy, PartialEq, Eq, Debug)]
pub enum Opening {
    /// A goal.
    Goal,
    /// A state with moves.
    State,
}

impl Opening {
    // The word that opens such a line.
    fn word(self) -> &'static [u8]
        ensures { result.now ≡ opening_word self }
    {
        match self {
            Opening::Goal => b"goal",
            Opening::State => b"state",
        }
    }
}

// The word that opens a line: its bytes are taken by a pattern; where none fits, the fault is looked for byte by byte.
pub(crate) fn opening_at(text: &[u8], at: usize) -> Result<Parsed<Opening>, TextFault>
    requires { at ≤ length text.now }
    ensures { told text_refusal result ≡ opening_at text.now at }
{
    if let Some((value, rest)) = opened(&text[at..]) {
        let next = text.len() - rest.len();
        return Ok(Parsed { value, next });
    }
    let value = match text.get(at) {
        Some(b's') => Opening::State,
        _ => Opening::Goal,
    };
    let next = word_at(text, at, value.word())?;
    Ok(Parsed { value, next })
}

// The word at the front of a line, and the rest of the line.
fn opened(line: &[u8]) -> Option<(Opening, &[u8])>
    ensures { elim result [
      | Some p ↦ line.now ≡ opening_word p.0 ++ p.1.now
      | None ↦ ((w : _) (rest : List ℕ) → line.now ≢ opening_word w ++ rest)
    ] }
{
    match line {
        [b'g', b'o', b'a', b'l', rest @ ..] => Some((Opening::Goal, rest)),
        [b's', b't', b'a', b't', b'e', rest @ ..] => Some((Opening::State, rest)),
        _ => None,
    }
}
