//! Runs on the text of one term.

pub(crate) mod output;
pub(crate) mod reading;
pub(crate) mod runs;
