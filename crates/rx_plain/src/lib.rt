//! A simple term store: a vector of slots that is searched from the front.
//!
//! [`PlainBank`] implements [`rx_term::TermBank`] with the same contracts as `rx_shared`, without
//! raw memory, hashing or chains. It is meant for tests of code that is generic in the store, and
//! for comparison.
//!
//! ```text
//! let mut bank = PlainBank::new(alloc, 100)?;
//! let nil = bank.nil()?;
//! let one = bank.int(1)?;
//! let list = bank.cons(one, nil)?;
//! ```
//!
//! **Invariant.** No two slots have equal contents, and a slot that is free has no protections.
//!
//! **Cost.** Making a term takes time linear in the number of slots. A collection makes passes over
//! all slots until a pass finds no new mark, so it can take quadratic time. Reading takes constant
//! time.
#![tactic(auto)]

mod bank;
mod marks;
mod slots;

pub use bank::PlainBank;
