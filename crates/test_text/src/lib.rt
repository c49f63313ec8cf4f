//! Tests of `rx_text` and `rx_pattern`, with worked examples.
//!
//! Contracts state what a call returns. These tests compare concrete results that were derived by
//! hand, and check that calls succeed if there is memory, and that deep and long inputs work. The
//! crate has nothing but tests.
//!
//! | Module | Subject |
//! |---|---|
//! | `text` | reading and printing terms |
//! | `numbers` | numbers in place of terms, nodes of a text |
//! | `pattern`, `pattern_limits` | matching and building |
//! | `banks`, `texts` | stores and texts for tests |
//!
//! Functions called `expect_..` abort the test if the expectation does not hold. Run one test with
//! `rt test` in this folder.
#![tactic(auto)]

#[cfg(test)]
mod banks;
#[cfg(test)]
mod numbers;
#[cfg(test)]
mod pattern;
#[cfg(test)]
mod pattern_limits;
#[cfg(test)]
mod text;
#[cfg(test)]
mod texts;
