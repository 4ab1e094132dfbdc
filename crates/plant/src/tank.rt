//! The tank line: pieces that are stuck on a belt, and a tank whose jets free them.

pub(crate) mod kinds;
pub(crate) mod line;
pub(crate) mod reading;
pub(crate) mod weights;
