//! The sections of a specification's text.

ghost use Rattle.std.specs.Prelude.{◌<◌, ◌≤◌, length};

/// A range of bytes of a text.
#[derive(Clone, Copy, Drop)]
pub(crate) struct Range {
    pub from: usize,
    pub to: usize,
}

/// The number of stretches of a text: before `REC-SPEC`, after it, the six sections, and after
/// `END-SPEC`.
pub(crate) const STRETCHES: usize = 9;

/// The reserved words that begin a stretch, in the order of the grammar.
pub(crate) const HEADS: [&str; 9] = [
    "", "REC-SPEC", "SORTS", "CONS", "OPNS", "VARS", "RULES", "EVAL", "END-SPEC",
];

/// The stretches of a text between the reserved words that divide it. An omitted section is an
/// empty range.
#[derive(Clone, Copy, Drop)]
pub(crate) struct Stretches {
    pub ranges: [Range; 9],
}

/// Returns whether a word can begin with the byte: a letter, a digit or `_`.
fn is_word_start(b: u8) -> bool {
    b.is_ascii_alphanumeric() || b == b'_'
}

/// Returns whether the byte at `at` continues a word.
fn is_word_part(text: &[u8], at: usize) -> bool
    requires { at < length text.now }
{
    let b = text[at];
    if is_word_start(b) || b == b'\'' {
        return true;
    }
    b == b'-' && at + 1 < text.len() && is_word_start(text[at + 1])
}

/// Returns the end of the word that continues at `from`.
fn word_end(text: &[u8], from: usize) -> usize
    requires { from ≤ length text.now }
    ensures above { from ≤ result }
    ensures within { result ≤ length text.now }
{
    let mut end = from;
    while end < text.len() && is_word_part(text, end) {
        end += 1;
    }
    end
}

/// Returns the offset of the next line feed from `from` on, or the length of the text.
fn line_end(text: &[u8], from: usize) -> usize
    requires { from ≤ length text.now }
    ensures above { from ≤ result }
    ensures within { result ≤ length text.now }
{
    let mut end = from;
    while end < text.len() && text[end] != b'\n' {
        end += 1;
    }
    end
}

/// Returns the index of the stretch that a reserved word begins, or 0 for other words.
fn stretch_of(word: &[u8]) -> usize
    ensures { result < 9 }
{
    for index in 1..STRETCHES {
        if word == HEADS[index].as_bytes() {
            return index;
        }
    }
    0
}

/// Returns the stretches of a text of the grammar. Linear in its length.
pub(crate) fn stretches_of(text: &[u8]) -> Stretches {
    let mut ranges = [Range { from: 0, to: 0 }; 9];
    let mut current = 0;
    let mut at = 0;
    while at < text.len() {
        let b = text[at];
        if b == b'%' {
            at = line_end(text, at + 1);
        } else if is_word_start(b) {
            let to = word_end(text, at + 1);
            let next = stretch_of(&text[at..to]);
            if next > 0 {
                ranges[current].to = at;
                ranges[next].from = to;
                current = next;
            }
            at = to;
        } else {
            at += 1;
        }
    }
    ranges[current].to = text.len();
    Stretches { ranges }
}
