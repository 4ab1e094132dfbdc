//! What the example prints of a call that is refused.
use std::fmt::Display;

// The line of the refusal.
pub(crate) fn show_refusal<T: Drop, F: Display + Drop>(
    rt: &HostRuntime,
    answer: Result<T, F>,
) -> anyhow::Result<()> {
    match answer {
        Ok(_) => println!(rt; "not refused")?,
        Err(fault) => println!(rt; "{fault}")?,
    }
    Ok(())
}
