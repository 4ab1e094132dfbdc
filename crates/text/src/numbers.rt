//! The numbers of a text.
ghost use Rattle.std.specs.Prelude.{◌≡◌, ◌≤◌, drop, IfOk};
ghost use Rattle.refusal.specs.Told.{told};
ghost use Rattle.text.specs.Faults.{text_refusal};
ghost use Rattle.text.specs.Numbers.{digits_at, number_at, ranged_at};

use crate::fault::TextFault;
use crate::marks::{Mark, mark_of};
use crate::parsed::Parsed;

/// The number at a place: all the digits there, in base ten and without a leading zero. One that 64 bits do not hold
/// counts as the greatest that they do.
pub fn number_at(text: &[u8], at: usize) -> Result<Parsed<u64>, TextFault>
    ensures { told text_refusal result ≡ number_at text.now at }
{
    let read = digits(text, at);
    if read.next == at {
        return Err(TextFault::Byte(at));
    }
    if text.get(at) == Some(&b'0') && read.next - at > 1 {
        return Err(TextFault::Number(at));
    }
    Ok(read)
}

/// The number at a place, if it lies from `low` to `high`. (Two numbers and no range of the library: one
/// that takes in its last number may have been walked through, and a contract would have to rule that out.)
pub fn ranged_at(text: &[u8], at: usize, low: u64, high: u64) -> Result<Parsed<u64>, TextFault>
    ensures answer { told text_refusal result ≡ ranged_at low high text.now at }
    ensures within { IfOk result (λ n. (low ≤ n.value) × (n.value ≤ high)) }
{
    let read = number_at(text, at)?;
    if (low..=high).contains(&read.value) {
        Ok(read)
    } else {
        Err(TextFault::Number(at))
    }
}

// The digits from a place on, and what they write. (Where there is none, the place after them is the same place; an `Option`
// would only say it again.)
fn digits(text: &[u8], at: usize) -> Parsed<u64>
    ensures { result ≡ digits_at at (drop at text.now) }
{
    let rest = behind(text, at);
    let mut value: u64 = 0;
    for (done, byte) in rest.iter().enumerate() {
        let Some(Mark::Digit(digit)) = mark_of(*byte) else {
            let next = at + done;
            return Parsed { value, next };
        };
        value = value.saturating_mul(10).saturating_add(u64::from(digit));
    }
    let next = at + rest.len();
    Parsed { value, next }
}

// The text from a place on.
fn behind(text: &[u8], at: usize) -> &[u8]
    ensures { result.now ≡ drop at text.now }
{
    text.get(at..).unwrap_or_default()
}
