//! Words with their offsets.

ghost use Rattle.std.specs.Prelude.{◌+◌, ◌<◌, ◌^◌, length};

/// A word and its offset in the text.
#[derive(Clone, Copy, Drop)]
pub struct Word<'a> {
    pub at: usize,
    pub bytes: &'a [u8],
    /// The offset after the word is a `usize`.
    ghost within: { at + length bytes.now < 2 ^ 64 },
}

/// A word of a term and its number of arguments.
#[derive(Clone, Copy, Drop)]
pub struct Counted<'a> {
    pub word: Word<'a>,
    pub count: usize,
}
