//! Joins several specifications into one.
//!
//! [`join_texts`] reads the texts of several specifications and makes one text: the sections of the
//! parts, merged in the order of the grammar, under the name of the last part. The comments of the
//! parts are kept, and each part of a section has a comment with the name of its text before it.
//! [`Joined::origin`] maps an offset in the joined text to the part and the offset in its text.
//!
//! ```text
//! let parts = [Part { name: b"nat.rec", text: nat }, Part { name: b"main.rec", text: main }];
//! let joined = join_texts(alloc, &parts)?;
//! out.write_all(joined.syntax.source())?;
//! ```
//!
//! **Proved.** The joined text spells a specification, and this is the one of the parts together:
//! the sections are appended, and only the offsets of names differ. The bytes of each piece of the
//! joined text are those of its part. An error names the first part that is no specification. That
//! no parts lead to [`JoinFault::Mismatch`] is tested and not proved: the joined text is read
//! again and compared with the parts.
//!
//! **Errors.** [`JoinFault`]: a part is too long or outside the grammar, the joined text is too
//! long, or an allocation failed.
//!
//! **Cost.** Linear in the texts. Each text is read once, and the joined text again.
#![tactic(auto)]

mod agree;
mod fault;
mod join;
mod layout;
mod same;
mod scan;

pub use fault::JoinFault;
pub use join::{Joined, Origin, Part, join_texts};
pub use layout::Piece;

#[cfg(test)]
mod tests;
