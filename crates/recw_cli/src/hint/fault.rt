//! A syntax error of a specification, and what is before it.

use crate::hint::change::{Change, Reading};
use crate::hint::tokens::{Token, rest_of, token_at};
use rec_syntax::{Part, TokenKind, expected_at_fault};
use std::alloc::Global;

/// A syntax error of a specification, and what is before it.
#[derive(Drop)]
pub struct Fault<'a> {
    /// The allocator of changed texts.
    pub alloc: Global,
    /// The text.
    pub text: &'a [u8],
    /// The token that is not expected.
    pub token: Token,
    /// The kinds of tokens that are expected.
    expected: Vec<TokenKind>,
    /// The tokens before it.
    pub before: Before,
}

/// The tokens before a syntax error.
#[derive(Clone, Copy)]
pub struct Before {
    /// The open section.
    pub section: Option<Part>,
    /// The number of open parentheses.
    pub open: usize,
    /// The last tokens, the last one first.
    pub last: [Option<Token>; 4],
}

impl Before {
    /// Returns what is before the first token.
    fn start() -> Before {
        Before {
            section: None,
            open: 0,
            last: [None, None, None, None],
        }
    }

    /// Passes a token.
    fn pass(&mut self, token: Token) {
        let [last, second, third, _] = self.last;
        self.last = [Some(token), last, second, third];
        self.open = depth_after(self.open, token);
        if token.part().is_some() {
            self.section = token.part();
        }
    }

    /// Returns whether the last token is of this kind.
    pub fn follows(&self, kind: TokenKind) -> bool {
        let [last, _, _, _] = self.last;
        match last {
            Some(token) => token.is(kind),
            None => false,
        }
    }
}

/// Returns the number of parentheses that are open after a token.
pub fn depth_after(open: usize, token: Token) -> usize {
    match token.kind {
        Some(TokenKind::Open) => open.saturating_add(1),
        Some(TokenKind::Close) => open.saturating_sub(1),
        _ => open,
    }
}

/// Returns the tokens before offset `at`.
fn tokens_before(text: &[u8], at: usize) -> Before {
    let mut before = Before::start();
    let mut token = token_at(text, 0);
    for _ in 0..at {
        if token.from >= at {
            break;
        }
        before.pass(token);
        token = token_at(text, token.to);
    }
    before
}

impl<'a> Fault<'a> {
    /// Returns the syntax error at offset `at`, or `None` if an allocation fails.
    pub fn new(alloc: Global, text: &'a [u8], at: usize) -> Option<Fault<'a>> {
        Some(Fault {
            alloc,
            text,
            token: token_at(text, at),
            expected: expected_at_fault(alloc, text).ok()?,
            before: tokens_before(text, at),
        })
    }

    /// Returns the offset of the error.
    pub fn at(&self) -> usize {
        self.token.from
    }

    /// Returns whether the token is a byte that no token begins with.
    pub fn is_bad(&self) -> bool {
        self.token.kind.is_none()
    }

    /// Returns whether a token of this kind is expected.
    pub fn expects(&self, kind: TokenKind) -> bool {
        self.expected.as_slice().iter().any(|own| *own == kind)
    }

    /// Returns whether an item of a section can begin here.
    pub fn is_at_item(&self) -> bool {
        self.expects(TokenKind::EndSpec)
    }

    /// Returns the text from the error on.
    pub fn rest(&self) -> &'a [u8] {
        rest_of(self.text, self.token.from)
    }

    /// Returns the first of these texts that the text continues with.
    pub fn first_of(&self, texts: &[&'static str]) -> Option<&'static str> {
        let rest = self.rest();
        for written in texts {
            if rest.starts_with(written.as_bytes()) {
                return Some(*written);
            }
        }
        None
    }

    /// Returns the change that writes `meant` in place of the next bytes.
    pub fn change(&self, length: usize, meant: &'static str) -> Change {
        let from = self.token.from;
        Change::new(from, from.saturating_add(length), meant)
    }

    /// Returns the changed text and how far it is read, or `None` if an allocation fails.
    pub fn read(&self, change: Change) -> Option<Reading> {
        change.read(self.alloc, self.text)
    }
}
