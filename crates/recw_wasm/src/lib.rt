//! Exports for WebAssembly: runs over texts in memory, for a host without files.
//!
//! Each export takes texts, writes the specified output to the start of a buffer of the host, and
//! returns a status: 0 done, 1 a text was rejected, 2 the buffer is too short, 3 out of memory, 4
//! out of cells. [`Told`] has the length of the output and the offset of an error. [`Options`] and
//! [`TraceOptions`] are the limits; each number is brought into its range.
//!
//! ```text
//! let status = recw_eval(alloc, spec, &options, &mut buffer, &mut told);
//! ```
//!
//! **Invariants.** Above status 1 the buffer is unchanged. If it is too short, `Told` has the
//! length that is needed, and the host can run again.
//!
//! **Cost.** That of the run, and one copy of its output.
#![tactic(auto)]

pub mod checking;
pub mod evaluating;
mod handing;
mod options;
pub mod patterns;
pub mod profiling;
pub mod terms;
#[cfg(test)]
mod tests;
mod told;
pub mod tracing;

pub use options::{Options, TraceOptions};
pub use told::Told;
