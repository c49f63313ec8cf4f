//! Usage errors that the parser of arguments does not report itself.

use clap::error::ErrorKind;

/// A usage error in arguments that the parser accepts.
#[derive(Clone, Copy)]
pub struct Wrong {
    /// The kind of the error.
    pub kind: ErrorKind,
    /// Its message.
    pub message: &'static str,
}

/// A missing argument, which the parser rules out.
pub const MISSING: Wrong = Wrong {
    kind: ErrorKind::MissingSubcommand,
    message: "a subcommand is missing",
};

/// Standard input is named twice.
pub const READ_TWICE: Wrong = Wrong {
    kind: ErrorKind::ArgumentConflict,
    message: "standard input ('-') can be used only once",
};

/// The location of a word is not two numbers.
pub const NO_WORD_PLACE: Wrong = Wrong {
    kind: ErrorKind::WrongNumberOfValues,
    message: "--at requires a line and a column, such as 7:3",
};

/// The location of a rule is not two numbers.
pub const NO_RULE_PLACE: Wrong = Wrong {
    kind: ErrorKind::WrongNumberOfValues,
    message: "--rule requires a line and a column, such as 3:5",
};

/// Only input terms are to be evaluated, and there are none.
pub const NO_INPUT: Wrong = Wrong {
    kind: ErrorKind::MissingRequiredArgument,
    message: "--only-terms requires input terms: TERMS, or -e TERM",
};

/// The term of a table would be printed in full.
pub const ONLY_FROM_TABLE: Wrong = Wrong {
    kind: ErrorKind::MissingRequiredArgument,
    message: "--from-table requires --to-table or --dot",
};
