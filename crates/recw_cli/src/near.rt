//! Similarity of words, for suggestions.

/// Returns the number of bytes in which words differ, between their common prefix and their common
/// suffix. It is 0 if they differ only in upper and lower case.
fn gap(word: &[u8], other: &[u8]) -> usize {
    if word.eq_ignore_ascii_case(other) {
        return 0;
    }
    let front = common_front(word, other);
    let (_, word) = word.split_at(front.min(word.len()));
    let (_, other) = other.split_at(front.min(other.len()));
    let back = common_back(word, other);
    word.len().max(other.len()).saturating_sub(back)
}

/// Returns the length of the common prefix.
fn common_front(word: &[u8], other: &[u8]) -> usize {
    let pairs = word.iter().zip(other.iter());
    pairs.take_while(|pair| pair.0 == pair.1).count()
}

/// Returns the length of the common suffix.
fn common_back(word: &[u8], other: &[u8]) -> usize {
    let pairs = word.iter().rev().zip(other.iter().rev());
    pairs.take_while(|pair| pair.0 == pair.1).count()
}

/// Returns the largest difference at which a word of this length is near to another.
fn most_apart(length: usize) -> usize {
    match length {
        0 | 1 => 0,
        2 | 3 => 1,
        _ => 2,
    }
}

/// Returns whether a word may be a misspelling of another.
pub fn is_near(word: &[u8], other: &[u8]) -> bool {
    gap(word, other) <= most_apart(word.len())
}

/// A search for the name that is nearest to a word.
#[derive(Clone, Copy)]
pub struct Nearest<'a> {
    /// The word.
    word: &'a [u8],
    /// The difference that the next name must be below.
    below: usize,
    /// The nearest name so far, if one is near.
    pub name: Option<&'a [u8]>,
}

impl<'a> Nearest<'a> {
    /// Returns a search without names.
    pub fn to(word: &'a [u8]) -> Nearest<'a> {
        Nearest {
            word,
            below: most_apart(word.len()).saturating_add(1),
            name: None,
        }
    }

    /// Compares one more name. The first of two equally near names is kept.
    pub fn offer(&mut self, name: &'a [u8]) {
        let gap = gap(self.word, name);
        if gap < self.below {
            self.below = gap;
            self.name = Some(name);
        }
    }
}
