//! Runs of a specification, with or without input terms.

pub(crate) mod counts;
pub(crate) mod due;
pub(crate) mod evaluated;
pub(crate) mod evaluation;
pub(crate) mod given;
pub(crate) mod input_terms;
pub(crate) mod lines;
pub(crate) mod outcome;
pub(crate) mod reading;
pub(crate) mod window;
