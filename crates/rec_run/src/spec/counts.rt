//! The numbers of lines that a run writes.

/// The numbers of lines of terms.
#[derive(Clone, Copy, Drop)]
pub struct Counts {
    /// The number of lines of terms.
    pub lines: u64,
    /// The number of limit lines among them.
    pub limit_lines: u64,
}
