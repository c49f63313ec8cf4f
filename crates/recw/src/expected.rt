//! Names of the expected tokens at a syntax error.

use rec_syntax::{Part, TokenKind as SpecificationToken};
use rx_run::Reason;
use rx_text::TokenKind as TermToken;
use std::alloc::Global;

/// Returns the names of the tokens that are expected at a syntax error. Returns none for other
/// errors, if an allocation fails, or if the text was not recorded up to the offset.
pub fn expected_words(
    alloc: Global,
    reason: Reason,
    text: &[u8],
    at: usize,
) -> Option<Vec<&'static str>> {
    if at > text.len() {
        return None;
    }
    match reason {
        Reason::Grammar { at: _ } => {
            let kinds = rec_syntax::expected_at_fault(alloc, text).ok()?;
            let words = kinds.iter().map(|kind| specification_token(*kind));
            words.collect(alloc).ok()
        }
        Reason::Outside { at: _ } => {
            let kinds = rx_text::expected_at_fault(alloc, text).ok()?;
            let words = kinds.iter().map(|kind| term_token(*kind));
            words.collect(alloc).ok()
        }
        _ => None,
    }
}

/// Returns the name of a token of specifications.
pub fn specification_token(kind: SpecificationToken) -> &'static str {
    match kind {
        SpecificationToken::PlainWord => "an identifier",
        SpecificationToken::RecSpec => "`REC-SPEC`",
        SpecificationToken::Section(Part::Sorts) => "`SORTS`",
        SpecificationToken::Section(Part::Cons) => "`CONS`",
        SpecificationToken::Section(Part::Opns) => "`OPNS`",
        SpecificationToken::Section(Part::Vars) => "`VARS`",
        SpecificationToken::Section(Part::Rules) => "`RULES`",
        SpecificationToken::Section(Part::Eval) => "`EVAL`",
        SpecificationToken::EndSpec => "`END-SPEC`",
        SpecificationToken::If => "`if`",
        SpecificationToken::AndIf => "`and-if`",
        SpecificationToken::Colon => "`:`",
        SpecificationToken::Open => "`(`",
        SpecificationToken::Close => "`)`",
        SpecificationToken::Comma => "`,`",
        SpecificationToken::Arrow => "`->`",
        SpecificationToken::Equal => "`-><-`",
        SpecificationToken::Unequal => "`->/<-`",
        SpecificationToken::End => "the end of the text",
    }
}

/// Returns the name of a token of ATerms.
pub fn term_token(kind: TermToken) -> &'static str {
    match kind {
        TermToken::Integer => "an integer",
        TermToken::Name => "a name",
        TermToken::Open => "`(`",
        TermToken::Close => "`)`",
        TermToken::OpenBracket => "`[`",
        TermToken::CloseBracket => "`]`",
        TermToken::OpenBrace => "`{`",
        TermToken::CloseBrace => "`}`",
        TermToken::Less => "`<`",
        TermToken::Greater => "`>`",
        TermToken::Comma => "`,`",
        TermToken::End => "the end of the text",
    }
}
