//! The settings of a session.

use rec_run::{RunOptions, ValueForm};
use rx_run::InputForm;
use std::alloc::Global;

/// The settings of a session: the form and the limits of its requests, and the form of its
/// responses.
#[derive(Clone, Copy, Debug, Drop)]
pub struct ServeSettings {
    /// The limits of an evaluation. `count` adds the steps spent to the responses that are values.
    pub options: RunOptions,
    /// The form of values.
    pub form: ValueForm,
    /// The call-depth limit of a request in frames. With `None`, only memory limits the depth.
    pub depth: Option<u32>,
    /// The form in which requests are read.
    pub input: InputForm,
}

/// The allocator and the settings of a session.
#[derive(Clone, Copy, Drop)]
pub struct Session {
    /// The allocator.
    pub alloc: Global,
    /// The settings.
    pub settings: ServeSettings,
}
