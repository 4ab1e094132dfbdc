//! The words and signs of a text.
ghost use Rattle.std.specs.Prelude.{◌≡◌};
ghost use Rattle.refusal.specs.Told.{told};
ghost use Rattle.text.specs.Faults.{text_refusal};
ghost use Rattle.text.specs.Words.{is_at, sign_at, word_at};

use crate::fault::TextFault;
use crate::marks::{Sign, is_sign};

/// The place after a sign that is due at a place.
pub fn sign_at(text: &[u8], at: usize, sign: Sign) -> Result<usize, TextFault>
    ensures { told text_refusal result ≡ sign_at text.now at sign }
{
    if is_sign(text, at, sign) {
        Ok(at + 1)
    } else {
        Err(TextFault::Byte(at))
    }
}

/// The place after a word that is due at a place; the fault is at the first byte that is another. (Each byte is asked for by
/// `get`, so that the end of the text is a byte that is another; a chain over both would have to tell the two apart.)
pub fn word_at(text: &[u8], at: usize, word: &[u8]) -> Result<usize, TextFault>
    ensures { told text_refusal result ≡ word_at text.now at word.now }
{
    for (done, byte) in word.iter().enumerate() {
        if !is_byte(text, at + done, *byte) {
            return Err(TextFault::Byte(at + done));
        }
    }
    Ok(at + word.len())
}

// Whether this byte stands at a place of the text.
fn is_byte(text: &[u8], at: usize, byte: u8) -> bool
    ensures { result ≡ is_at text.now at byte }
{
    text.get(at) == Some(&byte)
}
