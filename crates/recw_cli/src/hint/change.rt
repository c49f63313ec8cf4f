//! Changes of a text, and how far the changed text is read.

use crate::hint::tokens::token_at;
use rec_syntax::{SyntaxFault, read_spec};
use std::alloc::{AllocError, Global};

/// A change of a text.
#[derive(Clone, Copy)]
pub struct Change {
    /// The offset of the part that is replaced.
    pub from: usize,
    /// The offset after that part.
    pub to: usize,
    /// What is written in its place.
    pub meant: &'static str,
    /// The number of times that it is written.
    pub times: usize,
}

impl Change {
    /// Returns the change that writes `meant` in place of a part.
    pub fn new(from: usize, to: usize, meant: &'static str) -> Change {
        Change {
            from,
            to,
            meant,
            times: 1,
        }
    }

    /// Returns the change that writes spaces in place of a part.
    pub fn blank(from: usize, to: usize) -> Change {
        Change {
            from,
            to,
            meant: " ",
            times: to.saturating_sub(from),
        }
    }

    /// Returns the offset that a later part, at offset `at`, has in the changed text, or that of
    /// the changed part itself if it is not before `at`.
    pub fn moved(&self, at: usize) -> usize {
        if self.to > at {
            return self.from;
        }
        let length = self.to.saturating_sub(self.from);
        let written = self.meant.len().saturating_mul(self.times);
        at.saturating_add(written).saturating_sub(length)
    }

    /// Returns the changed text.
    pub fn apply(&self, alloc: Global, text: &[u8]) -> Result<Vec<u8>, AllocError> {
        let mut changed = Vec::new(alloc);
        changed.extend_from_slice(text.get(..self.from).unwrap_or(&[]))?;
        for _ in 0..self.times {
            changed.extend_from_slice(self.meant.as_bytes())?;
        }
        changed.extend_from_slice(text.get(self.to..).unwrap_or(&[]))?;
        Ok(changed)
    }

    /// Returns the changed text and how far it is read, or `None` if an allocation fails.
    pub fn read(&self, alloc: Global, text: &[u8]) -> Option<Reading> {
        read(alloc, self.apply(alloc, text).ok()?)
    }
}

/// A text, and how far it is read.
#[derive(Drop)]
pub struct Reading {
    /// The text.
    text: Vec<u8>,
    /// The offset of the syntax error, if there is one.
    fault: Option<usize>,
}

/// Returns a text and how far it is read, or `None` if an allocation fails.
pub fn read(alloc: Global, text: Vec<u8>) -> Option<Reading> {
    let fault = match read_spec(alloc, text.as_slice()) {
        Ok(_) => None,
        Err(SyntaxFault::Grammar { at }) => Some(at as usize),
        Err(_) => return None,
    };
    Some(Reading { text, fault })
}

impl Reading {
    /// Returns whether so many tokens from an offset on are read, or the whole text.
    pub fn reads(&self, at: usize, count: usize) -> bool {
        let Some(fault) = self.fault else {
            return true;
        };
        let mut from = at;
        for _ in 0..count {
            let token = token_at(self.text.as_slice(), from);
            if token.from >= fault {
                return false;
            }
            from = token.to;
        }
        true
    }

    /// Returns whether no syntax error is before an offset.
    pub fn is_past(&self, at: usize) -> bool {
        match self.fault {
            Some(fault) => fault >= at,
            None => true,
        }
    }

    /// Returns whether the syntax error is at such a byte, and not before an offset.
    pub fn is_next_at(&self, at: usize, byte: u8) -> bool {
        match self.fault {
            Some(fault) => fault >= at && self.text.as_slice().get(fault) == Some(&byte),
            None => false,
        }
    }

    /// Returns whether this text is read further than another, if `more` and `others` bytes were
    /// added before the errors.
    pub fn is_further(&self, more: usize, other: &Reading, others: usize) -> bool {
        match (self.fault, other.fault) {
            (_, None) => false,
            (None, Some(_)) => true,
            (Some(own), Some(fault)) => { own.saturating_sub(more) > fault.saturating_sub(others) }
        }
    }
}
