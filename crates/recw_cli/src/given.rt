//! The terms that are given with `-e`.

use std::alloc::{AllocError, Global};

/// The terms given with `-e`, as the text of one list, and the offset of each of them in it.
#[derive(Drop)]
pub struct Given {
    /// The text so far.
    text: Vec<u8>,
    /// The offset of each term.
    starts: Vec<usize>,
    /// Whether one of them is malformed; the text ends with it then.
    is_broken: bool,
}

impl Given {
    /// Returns a list without terms.
    pub fn new(alloc: Global) -> Given {
        Given {
            text: Vec::new(alloc),
            starts: Vec::new(alloc),
            is_broken: false,
        }
    }

    /// Adds a term. If it is malformed, `fault` is the offset of its syntax error. The list is then
    /// rejected at that offset, whatever terms follow.
    pub fn push(&mut self, word: &str, fault: Option<usize>) -> Result<(), AllocError> {
        if self.is_broken {
            return Ok(());
        }
        self.text
            .extend_from_slice(if self.starts.is_empty() { b"[" } else { b"," })?;
        self.starts.push(self.text.len())?;
        let word = word.as_bytes();
        match fault {
            None => self.text.extend_from_slice(word),
            Some(at) => self.break_off(word, at),
        }
    }

    /// Appends the prefix of a malformed term that may begin a term, and then a byte that begins no
    /// token.
    fn break_off(&mut self, word: &[u8], at: usize) -> Result<(), AllocError> {
        self.is_broken = true;
        let (beginning, _) = word.split_at(at.min(word.len()));
        self.text.extend_from_slice(beginning)?;
        self.text.extend_from_slice(b"\0")
    }

    /// Ends the list.
    pub fn end(&mut self) -> Result<(), AllocError> {
        self.text.extend_from_slice(b"]")
    }

    /// Returns the text of the list.
    pub fn text(&self) -> &[u8] {
        self.text.as_slice()
    }

    /// Returns the index of the term that contains offset `at` of the text, and the offset in it.
    pub fn locate(&self, at: usize) -> (usize, usize) {
        let behind = self.starts.iter().filter(|start| **start <= at).count();
        let number = behind.saturating_sub(1);
        let start = self.starts.get(number).copied().unwrap_or(0);
        (number, at.saturating_sub(start))
    }
}
