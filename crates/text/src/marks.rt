//! What one character of a text is.
ghost use Rattle.std.specs.Prelude.{◌≡◌};
ghost use Rattle.text.specs.Marks.{Marked, mark, sign_byte};
ghost use Rattle.text.specs.Words.{is_at};

/// A character that stands for itself alone and decides what may follow.
#[derive(Clone, Copy, PartialEq, Eq, Debug)]
pub enum Sign {
    /// An opening bracket.
    Open,
    /// A closing bracket.
    Close,
    /// A space.
    Space,
    /// A line feed.
    Feed,
}

/// A character that means something on its own: a sign, or a digit.
#[derive(Clone, Copy, PartialEq, Eq, Debug)]
pub enum Mark {
    /// A bracket, a space or a line feed.
    Sign(Sign),
    /// A digit, by its value.
    Digit(u8),
}

/// What a character is, if it is a sign or a digit.
pub fn mark_of(byte: u8) -> Option<Mark>
    ensures answer { result ≡ mark byte }
    ensures means { Marked byte result }
{
    match byte {
        b'(' => Some(Mark::Sign(Sign::Open)),
        b')' => Some(Mark::Sign(Sign::Close)),
        b' ' => Some(Mark::Sign(Sign::Space)),
        b'\n' => Some(Mark::Sign(Sign::Feed)),
        b'0'..=b'9' => Some(Mark::Digit(byte - b'0')),
        _ => None,
    }
}

/// Whether a sign stands at a place of the text.
pub fn is_sign(text: &[u8], at: usize, sign: Sign) -> bool
    ensures { result ≡ is_at text.now at (sign_byte sign) }
{
    text.get(at)
        .is_some_and(|byte| mark_of(*byte) == Some(Mark::Sign(sign)))
}
