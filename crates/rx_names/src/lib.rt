//! A symbol table: one number for each name, quoted flag and number of arguments.
//!
//! [`Names::intern`] returns the [`rx_term::Symbol`] of these three, and adds it if it is new.
//! [`Names::find`] only looks it up, and [`Names::get`] returns the three for a symbol. Both term
//! stores use this table.
//!
//! ```text
//! let mut names = Names::new(alloc)?;
//! let f = names.intern(b"f", false, 2)?;
//! assert!(names.get(f) == (b"f", false, 2));
//! ```
//!
//! **Invariant.** Symbols are never removed, and no two symbols have equal parts (module [`laws`]).
//! Every name is plain, quoted or empty. The bytes of a name are stored once, also if several
//! symbols have it.
//!
//! **Cost.** Expected time linear in the length of the name. The only error is out of memory, after
//! which the table is unchanged.
#![tactic(auto)]

mod faults;
pub mod laws;
mod names;
mod words;

pub use faults::NamesFault;
pub use names::Names;
