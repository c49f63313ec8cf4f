//! The list item that causes an error without an offset.

use std::io;
use std::io::Write;

/// The item of a rejected list that an explanation names.
#[derive(Clone, Copy)]
pub enum Item {
    /// The element with index `at` is the first that causes the error.
    Element { at: usize },
    /// The list has `given` elements, and `wanted` are required.
    Count { wanted: usize, given: usize },
}

/// Writes the item, after the rest of a line.
pub fn write_item<W: Write>(item: Item, out: &mut W) -> io::Result<()> {
    match item {
        Item::Element { at } => {
            let number = at.saturating_add(1);
            write!(out, "; element {number} of the list")
        }
        Item::Count { wanted, given } => write!(out, "; expected {wanted}, found {given}"),
    }
}
