//! The data from which the lines of traces are made.

use crate::options::TraceOptions;
use rec_trace::Spot;
use std::alloc::Global;

/// The data from which the lines of a specification's rewrites are made.
#[derive(Drop)]
pub(crate) struct Telling<'a> {
    /// The allocator.
    pub(crate) alloc: Global,
    /// The location at which each rule begins.
    pub(crate) spots: Vec<Spot>,
    /// The settings of the run.
    pub(crate) options: TraceOptions<'a>,
}
