//! Which pairs of a memo table are new. Every answer is correct, so no clause speaks about it. The
//! marks are in a table of their own, one byte for each entry, so that an entry keeps its 16 bytes.

use std::alloc::{AllocError, Global};

/// Which of a set's two entries are new.
#[derive(Clone, Copy)]
pub struct Mark {
    pub(crate) first: bool,
    pub(crate) second: bool,
}

/// The mark of a set without new entries.
const OLD: Mark = Mark {
    first: false,
    second: false,
};

/// The mark of a set that may have new entries.
const NEW: Mark = Mark {
    first: true,
    second: true,
};

/// For each set, the entries that were put or used since all of them were last made old.
#[derive(Drop)]
pub struct Newest {
    marks: Vec<Mark>,
    /// An upper bound on the number of such entries.
    count: usize,
}

impl Newest {
    /// Returns marks for this number of sets, with no new entry.
    pub(crate) fn new(alloc: Global, sets: usize) -> Result<Newest, AllocError> {
        let marks = vec![in alloc; OLD; sets]?;
        Ok(Newest { marks, count: 0 })
    }

    /// Makes marks for this number of sets, in which each entry may be new. Returns whether the
    /// allocation succeeded.
    pub(crate) fn widen(&mut self, sets: usize) -> bool {
        match vec![in *self.marks.allocator(); NEW; sets] {
            Ok(marks) => {
                self.marks = marks;
                true
            }
            Err(_) => false,
        }
    }

    /// Marks a new first entry of a set. The entry that was first becomes the second, unless it has
    /// the same key.
    #[inline]
    pub(crate) fn lead(&mut self, place: usize, same_key: bool) {
        if place < self.marks.len() {
            let before = self.marks[place];
            self.marks[place] = Mark {
                first: true,
                second: if same_key {
                    before.second
                } else {
                    before.first
                },
            };
            self.count = self.count.saturating_add(1);
        }
    }

    /// Marks the first or second entry of a set as used.
    #[inline]
    pub(crate) fn touch(&mut self, place: usize, is_first: bool) {
        if place < self.marks.len() {
            let before = self.marks[place];
            if (is_first && !before.first) || (!is_first && !before.second) {
                self.marks[place] = Mark {
                    first: before.first || is_first,
                    second: before.second || !is_first,
                };
                self.count = self.count.saturating_add(1);
            }
        }
    }

    /// Returns an upper bound on the number of new entries.
    pub(crate) fn count(&self) -> usize {
        self.count
    }

    /// Returns which entries of a set are new.
    pub(crate) fn mark(&self, place: usize) -> Mark {
        if place < self.marks.len() {
            self.marks[place]
        } else {
            OLD
        }
    }

    /// Makes all entries old.
    pub(crate) fn clear(&mut self) {
        if self.count > 0 {
            for place in 0..self.marks.len() {
                self.marks[place] = OLD;
            }
            self.count = 0;
        }
    }
}
