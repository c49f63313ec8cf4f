//! Tests of whole runs and of the calls of the C library, with worked examples.
//!
//! Contracts state that a run that succeeds writes the specified output. These tests compare
//! concrete outputs, and check that runs succeed if there is memory, what each limit does, and how
//! often a store is used. The crate has nothing but tests.
//!
//! | Module | Subject |
//! |---|---|
//! | `rows::spec`, `rows::given`, `rows::limits` | specifications, input terms, sizes of texts |
//! | `rows::term`, `rows::table` | terms, tables, lines of a limited length |
//! | `rows::look`, `rows::pattern` | indented terms, patterns |
//! | `rows::choice` | choices of terms |
//! | `rows::serve`, `rows::depth` | sessions, call depth |
//! | `rows::bank`, `rows::cells`, `rows::counting` | the use of the store, and small stores |
//! | `rows::hostile`, `rows::streams`, `rows::performing` | readers and writers that fail |
//! | `calls` | the calls of the C library |
//!
//! Functions called `expect_..` abort the test if the expectation does not hold. Run one test with
//! `rt test` in this folder.
#![tactic(auto)]

#[cfg(test)]
mod calls;
#[cfg(test)]
mod rows;
