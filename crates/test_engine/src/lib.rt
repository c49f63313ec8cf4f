//! Tests of `rec_memo`, `rec_engine` and `rec_trace`, with worked examples.
//!
//! Contracts state what a call returns. These tests compare concrete results that were derived by
//! hand, and check that calls succeed if there is memory, and that deep and long evaluations work.
//! The crate has nothing but tests.
//!
//! | Module | Subject |
//! |---|---|
//! | `memo` | the memo table |
//! | `engine`, `depth`, `observed`, `values`, `lent`, `shared` | evaluation |
//! | `trace`, `trace_lines` | evaluation step by step |
//! | `callers` | the example clients of `example_client` |
//! | `banks`, `cases`, `texts` | stores, engines and specifications for tests |
//!
//! Functions called `expect_..` abort the test if the expectation does not hold. Run one test with
//! `rt test` in this folder.
#![tactic(auto)]

#[cfg(test)]
mod banks;
#[cfg(test)]
mod callers;
#[cfg(test)]
mod cases;
#[cfg(test)]
mod depth;
#[cfg(test)]
mod engine;
#[cfg(test)]
mod lent;
#[cfg(test)]
mod memo;
#[cfg(test)]
mod observed;
#[cfg(test)]
mod shared;
#[cfg(test)]
mod texts;
#[cfg(test)]
mod trace;
#[cfg(test)]
mod trace_lines;
#[cfg(test)]
mod values;
