//! The cells of terms: raw blocks of 1,024 cells, linked in chains by raw pointers, and identified
//! by the numbers of their slots.
//!
//! An [`arena::Arena`] takes and frees slots, keeps the chains of a hash table, and has the marks
//! and the gray list of a garbage collection. No other crate of the store uses raw pointers.
//!
//! A cell takes 48 bytes. Its fields are in the order of the source, so that a walk along a chain
//! reads only the first 16:
//!
//! | Bytes | Field | Meaning |
//! |---|---|---|
//! | 0 to 7 | `chain` | a pointer to the next cell of the chain, or to the cell itself at the end |
//! | 8 to 11 | `number` | the cell's own slot |
//! | 12 to 13 | `roots` | the number of protections |
//! | 14 | `kind` | the body's kind |
//! | 15 | | not used |
//! | 16 to 23 | `hash` | the hash of the body |
//! | 24 to 39 | `a`, `b` | two words of the body |
//! | 40 to 47 | `anns` | the slot of the annotations, if there are any |
//!
//! No pointer is compared, tested against null or turned into a number: a link is identified by the
//! `number` in the cell that it leads to, and a cell's own number means the end.
//!
//! ```text
//! let slot = arena.take(body)?;
//! arena.chain_push(arena.home(body.hash), slot);
//! ```
//!
//! **Cost.** Constant time, except that functions on a whole chain, `reserve` and `rehash_into` are
//! linear in the number of slots that they visit.
#![tactic(auto)]

pub mod arena;
mod cells;
pub mod faces;
mod fault;
mod heads;
mod pool;
mod room;
mod slot_table;
mod slots;
mod store;

pub use fault::ArenaFault;
pub use store::Store;

/// The number of a cell, counted from 0.
#[derive(Clone, Copy, Debug, PartialEq, Eq)]
pub struct Slot(pub u32);

/// The contents of a cell: its kind, two words, the slot of its annotations, and a hash of all
/// these.
#[derive(Clone, Copy, Debug, PartialEq, Eq)]
pub struct CellBody {
    pub kind: u8,
    pub a: u64,
    pub b: u64,
    pub anns: Option<Slot>,
    pub hash: u64,
}

/// The contents of a cell without the hash.
#[derive(Clone, Copy, Debug, PartialEq, Eq)]
pub struct Face {
    pub kind: u8,
    pub a: u64,
    pub b: u64,
    pub anns: Option<Slot>,
}
