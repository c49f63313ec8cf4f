//! Tests of the crates of the term store, through their public functions.
//!
//! Clauses say what a call returns, but not that it succeeds if there is memory, nor that it is
//! fast. These tests check it: that arenas fill up to their limit and free their blocks, that
//! chains stay short, that collections keep what they should, and that a million cells take
//! seconds. The crate has nothing but tests.
//!
//! | Module | Subject |
//! |---|---|
//! | `arena`, `blocks` | `rx_arena`: slots, chains, marks, blocks |
//! | `sweep` | `rx_sweep`: collections of small and of long graphs |
//! | `names` | `rx_names`: symbols |
//! | `banks`, `shared`, `plain` | both term stores |
//!
//! Functions called `expect_..` abort the test if the expectation does not hold. Run one test with
//! `rt test` in this folder.
#![tactic(auto)]

#[cfg(test)]
mod arena;
#[cfg(test)]
mod banks;
#[cfg(test)]
mod blocks;
#[cfg(test)]
mod names;
#[cfg(test)]
mod plain;
#[cfg(test)]
mod shared;
#[cfg(test)]
mod sweep;
