//! Tests of `rec_syntax`, `rec_sorts` and `rec_match`, with worked examples.
//!
//! Contracts state what a call returns. These tests compare concrete results that were derived by
//! hand, and check that calls succeed if there is memory, that deep and long inputs work, and that
//! matching reads few nodes. The crate has nothing but tests.
//!
//! | Module | Subject |
//! |---|---|
//! | `syntax`, `verdicts` | reading and checking specifications |
//! | `given`, `links` | input terms, the symbols of a specification in a store |
//! | `matcher`, `finding`, `settling` | matching trees |
//! | `banks`, `counting`, `texts` | stores and specifications for tests |
//!
//! Functions called `expect_..` abort the test if the expectation does not hold. Run one test with
//! `rt test` in this folder.
#![tactic(auto)]

#[cfg(test)]
mod banks;
#[cfg(test)]
mod counting;
#[cfg(test)]
mod finding;
#[cfg(test)]
mod given;
#[cfg(test)]
mod links;
#[cfg(test)]
mod matcher;
#[cfg(test)]
mod settling;
#[cfg(test)]
mod syntax;
#[cfg(test)]
mod texts;
#[cfg(test)]
mod verdicts;
