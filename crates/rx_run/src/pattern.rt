//! Runs with a pattern.

pub(crate) mod answer;
pub(crate) mod lines;
pub(crate) mod making;
pub(crate) mod matching;
pub(crate) mod reading;
