//! Texts for several test cases.

use std::alloc::Global;
use std::process::Abort;

/// A text inside other texts, which are repeated.
#[derive(Drop)]
pub struct Nest<'a> {
    pub before: &'a [u8],
    pub open: &'a [u8],
    pub inner: &'a [u8],
    pub close: u8,
    pub after: &'a [u8],
    pub depth: u32,
}

impl Nest<'_> {
    /// Returns the whole text.
    pub fn text(&self, rt: &impl Abort, alloc: Global) -> Vec<u8> {
        let mut text = Vec::from_slice(alloc, self.before).expect(rt, "memory");
        repeat(rt, &mut text, self.open, self.depth);
        push(rt, &mut text, self.inner);
        repeat(rt, &mut text, &[self.close], self.depth);
        push(rt, &mut text, self.after);
        text
    }
}

/// Appends a part `count` times.
fn repeat(rt: &impl Abort, text: &mut Vec<u8>, part: &[u8], count: u32) {
    for _ in 0..count {
        assert!(rt; text.extend_from_slice(part).is_ok());
    }
}

/// Returns `count` spaces.
pub fn blanks(rt: &impl Abort, alloc: Global, count: usize) -> Vec<u8> {
    vec![in alloc; b' '; count].expect(rt, "memory")
}

/// Appends a text.
pub fn push(rt: &impl Abort, text: &mut Vec<u8>, end: &[u8]) {
    assert!(rt; text.extend_from_slice(end).is_ok());
}

/// Aborts the test unless a test case holds.
pub fn expect(rt: &impl Abort, holds: bool, row: &str) {
    assert!(rt; holds, "{row}");
}
