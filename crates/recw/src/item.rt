//! The list item that causes an error without an offset.

use rec_run::refused_term;
use recw_cli::Item;
use rx_run::{Misfit, refused_argument};
use std::alloc::Global;

/// Returns the index of the input term that violates one of the rules T2 to T6. `None` if no rule
/// of these is violated, or an allocation fails.
pub fn element_of_terms(alloc: Global, spec: &[u8], terms: &[u8]) -> Option<usize> {
    refused_term(alloc, spec, terms).ok()?
}

/// Returns the reason why arguments do not fit a pattern, if they are rejected for that.
pub fn item_of_args(alloc: Global, pattern: &[u8], args: &[u8]) -> Option<Item> {
    match refused_argument(alloc, pattern, args).ok()?? {
        Misfit::Count { wanted, given } => Some(Item::Count { wanted, given }),
        Misfit::Kind { at } => Some(Item::Element { at }),
    }
}
