//! Tests of usage errors.

use crate::tests::{ADDITION, run};
use std::alloc::Global;
use std::process::Abort;
use std::rt::Files;

/// Arguments of eval that are usage errors.
const WRONG_EVAL: &[&[&str]] = &[
    &["eval", "--cells", "0"],
    &["eval", "--cells", "1073741825"],
    &["eval", "--reclaim", "0"],
    &["eval", "--reclaim", "1073741825"],
    &["eval", "--memo", "1048577"],
    &["eval", "--depth", "4294967296"],
    &["eval", "--depth", "-1"],
    &["eval", "--bytes", "1000000000000000001"],
    &["eval", "--bytes", "-1"],
    &["eval", "--steps", "3", "--steps", "4"],
    &["eval", "--count", "--count"],
    &["eval", "--steps", "1000000000000000001"],
    &["eval", "--steps", "-1"],
    &["eval", "--steps", "x"],
    &["eval", "--steps"],
    &["eval", "a", "b", "c"],
    &["eval", "-7"],
    &["eval", "--explain", "--explain"],
    &["eval", "-e"],
    &["eval", "a", "b", "-e", "c"],
    &["eval", "-", "-"],
    &["eval", "-e", "-7"],
    &["eval", "--test"],
    &["eval", "--limit-status", "--limit-status"],
    &["eval", "--stuck", "--stuck"],
    &["eval", "--profile", "--profile"],
    &["eval", "--progress", "--progress"],
    &["eval", "--term", "0"],
    &["eval", "--term", "1000000000000000001"],
    &["eval", "--term", "1", "--term", "2"],
    &["eval", "--terms-table"],
    &["eval", "--terms-table", "a"],
    &["eval", "--terms-table", "-e", "z"],
    &["eval", "--terms-table", "a", "b", "-e", "z"],
    &["eval", "--terms-table", "--terms-table", "a", "b"],
    &["eval", "--only-terms"],
    &["eval", "--only-terms", "--term", "1", "-e", "z"],
    &["eval", "--only-terms", "--only-terms", "-e", "z"],
    &["eval", "--input", "z", "a", "b"],
    &["eval", "--to-table", "--bytes", "9"],
    &["eval", "--to-table", "--to-table"],
    &["eval", "--dot"],
    &["eval", "--dot", "0"],
    &["eval", "--dot", "x"],
    &["eval", "--dot", "1", "--term", "1"],
    &["eval", "--dot", "1", "--only-terms", "-e", "z"],
    &["eval", "--dot", "1", "--bytes", "9"],
    &["eval", "--dot", "1", "--to-table"],
    &["eval", "--dot", "1", "--count"],
    &["eval", "--dot", "1", "--sizes"],
    &["eval", "--dot", "1", "--stuck"],
    &["eval", "--dot", "1", "--profile"],
    &["eval", "--dot", "1", "--nodes", "0"],
    &["eval", "--nodes", "3"],
    &["eval", "--whole"],
];

/// Arguments of trace and serve that are usage errors.
const WRONG_TRACE: &[&[&str]] = &[
    &["serve", "--depth", "x", "a"],
    &["serve", "--bytes", "x", "a"],
    &["trace", "-", "--bytes", "1"],
    &["trace", "-", "--stuck"],
    &["trace", "-", "--profile"],
    &["serve", "a", "--progress"],
    &["trace"],
    &["trace", "-", "-"],
    &["trace", "a", "b", "c"],
    &["trace", "-", "a", "-e", "z"],
    &["trace", "-", "-e", "z", "--term", "0"],
    &["trace", "-", "--term", "x"],
    &["trace", "-", "--only-terms"],
    &["trace", "-", "--rules", "--rules"],
    &["serve", "a", "--term", "1"],
    &["serve", "a", "--only-terms"],
    &["serve", "a", "--terms-table"],
    &["trace", "-", "a", "--terms-table"],
    &["serve", "a", "--to-table", "--bytes", "9"],
    &["serve", "a", "--from-table", "--from-table"],
    &["trace", "-", "--from-table"],
    &["trace", "-", "--to-table"],
    &["trace", "-", "--sizes"],
    &["serve", "a", "--sizes"],
    &["serve", "a", "--dot", "1"],
    &["trace", "-", "--memo", "0"],
    &["trace", "-", "--width", "2"],
    &["trace", "-", "--width", "x"],
    &["trace", "-", "--last", "1073741825"],
    &["trace", "-", "--first", "-1"],
    &["trace", "-", "--rule", "3"],
    &["trace", "-", "--rule", "3:5:7"],
    &["trace", "-", "--rule", "0:1"],
    &["trace", "-", "--rule", "3:"],
    &["trace", "-", "--rule", "3:5", "--rule", "4:5"],
    &["trace", "-", "--whole", "--whole"],
];

/// Arguments of the other commands, and of none, that are usage errors.
const WRONG_OTHERS: &[&[&str]] = &[
    &["aterm", "--depth", "1"],
    &["--steps", "3"],
    &["match"],
    &["match", "a", "b", "c"],
    &["match", "-7"],
    &["make"],
    &["make", "a"],
    &["make", "a", "b", "c"],
    &["share", "a", "b"],
    &["--explain"],
    &["match", "--test", "a", "--test"],
    &["match", "--limit-status", "a"],
    &["aterm", "-e", "a"],
    &["aterm", "--width", "8"],
    &["aterm", "--indent", "2", "--width", "0"],
    &["aterm", "--indent", "2", "--width", "1073741825"],
    &["aterm", "--bytes", "1000000000000000001"],
    &["aterm", "--bytes", "3", "--to-table"],
    &["aterm", "--indent", "2", "--to-table"],
    &["aterm", "--indent", "2", "--from-table"],
    &["aterm", "--indent", "2", "--width", "8", "--from-table"],
    &["aterm", "--width", "8", "--to-table"],
    &["share", "--from-table"],
    &["share", "--nodes", "5", "--to-table"],
    &["share", "--dot", "--to-table"],
    &["share", "--from-table", "--dot", "--to-table"],
    &["match", "--from-table", "a"],
    &["share", "--nodes", "5"],
    &["share", "--dot", "--nodes", "0"],
    &["check", "--format", "-"],
    &["check", "--format", "xml", "-"],
    &["check", "--format", "json", "--format", "json", "-"],
    &["uses", "--format", "json"],
    &["help", "S12"],
];

/// Checks that these arguments are a usage error, and that nothing is written on standard output.
fn refuses<H: Abort + Files>(rt: &H, alloc: Global, words: &[&str]) {
    let ran = run(rt, alloc, words, ADDITION);
    let is_refused = ran.status == 2 && ran.out().is_empty() && ran.err().starts_with("error: ");
    assert!(rt; is_refused, "{words:?}: {}", ran.err());
}

/// Checks that each of these arguments is a usage error.
fn all_refuse<H: Abort + Files>(rt: &H, alloc: Global, rows: &[&[&str]]) {
    for words in rows {
        refuses(rt, alloc, words);
    }
}

/// Selections that name nothing in the addition, and their usage errors.
const UNNAMED: [(&[&str], &str); 7] = [
    (
        &["trace", "-", "--rule", "1:100"],
        "error: invalid value '1:100' for '--rule <LINE:COL>': no rule begins there; \
         the nearest one begins at 1:103\n\nFor more information, try '--help'.\n",
    ),
    (
        &["trace", "-", "--rule", "1:117"],
        "error: invalid value '1:117' for '--rule <LINE:COL>': no rule begins there; \
         the nearest one begins at 1:103\n\nFor more information, try '--help'.\n",
    ),
    (
        &["trace", "-", "--rule", "7:3", "--symbol", "pluss"],
        "error: invalid value '7:3' for '--rule <LINE:COL>': no rule begins there; \
         the nearest one begins at 1:118\n\nFor more information, try '--help'.\n",
    ),
    (
        &["trace", "-", "--symbol", "pluss"],
        "error: invalid value 'pluss' for '--symbol <NAME>': not a symbol; \
         did you mean `plus`?\n\nFor more information, try '--help'.\n",
    ),
    (
        &["trace", "-", "--symbol", "X", "--rules"],
        "error: invalid value 'X' for '--symbol <NAME>': not a symbol; \
         the only operator is plus\n\nFor more information, try '--help'.\n",
    ),
    (
        &["trace", "-", "--symbol", "", "--rule", "1:103"],
        "error: invalid value '' for '--symbol <NAME>': not a symbol; \
         the only operator is plus\n\nFor more information, try '--help'.\n",
    ),
    (
        &["trace", "-", "--symbol", "Nat", "--explain"],
        "error: invalid value 'Nat' for '--symbol <NAME>': not a symbol; \
         the only operator is plus\n\nFor more information, try '--help'.\n",
    ),
];

#[test]
fn refuses_what_is_not_there(rt: HostRuntime) {
    for (words, wanted) in &UNNAMED {
        let ran = run(&rt, rt.alloc(), *words, ADDITION);
        let is_refused = ran.status == 2 && ran.out().is_empty() && ran.err() == *wanted;
        assert!(&rt; is_refused, "{words:?}: {}", ran.err());
    }
}

#[test]
fn refuses_words_of_eval(rt: HostRuntime) {
    all_refuse(&rt, rt.alloc(), WRONG_EVAL);
}

#[test]
fn refuses_words_of_trace_and_serve(rt: HostRuntime) {
    all_refuse(&rt, rt.alloc(), WRONG_TRACE);
}

#[test]
fn refuses_words_of_others(rt: HostRuntime) {
    all_refuse(&rt, rt.alloc(), WRONG_OTHERS);
}
