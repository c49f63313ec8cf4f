//! The part of a request that was read so far.

ghost use Rattle.std.specs.Prelude.{◌≤◌, vec_len};

use rx_text::LONGEST;
use std::alloc::Global;

/// The largest number of bytes of a request that are kept: one more than a text may have.
const MOST_KEPT: usize = LONGEST + 1;

/// The part of a request that was read so far.
#[derive(Drop)]
pub(crate) struct Request {
    /// The bytes of the request, at most one more than a text may have.
    pub(crate) text: Vec<u8>,
    /// Whether an allocation for these bytes failed.
    pub(crate) is_lost: bool,
    ghost short: { vec_len text ≤ 16777217 },
}

impl Request {
    ghost use Rattle.std.specs.Prelude.{◌≡◌, ◌<◌, ◌++◌, [], List, ℕ, MatchOption, Some, false};
    ghost use Rattle.std.specs.Prelude.{length, true};
    ghost use Rattle.rec_serve.specs.Inner.Reading.{IsRead};

    /// Makes a request of which nothing was read.
    pub(crate) fn new(alloc: Global) -> Request
        ensures { IsRead result [] }
    {
        Request {
            text: Vec::new(alloc),
            is_lost: false,
        }
    }

    /// Returns whether a byte of the request was read.
    fn is_begun(&self) -> bool
        ensures none { result ≡ false → (line : List ℕ) → IsRead self.now line → line ≡ [] }
        ensures some { result ≡ true → (line : List ℕ) → IsRead self.now line → 0 < length line }
    {
        if self.is_lost {
            return true;
        }
        self.text.len() > 0
    }

    /// Returns the request after its line end was read.
    pub(crate) fn ended(self) -> Option<Request>
        ensures { result ≡ Some self }
    {
        Some(self)
    }

    /// Returns the request at the end of a stream, or `None` if no byte of it was read.
    pub(crate) fn last(self) -> Option<Request>
        ensures { MatchOption result ((line : List ℕ) → IsRead self line → line ≡ [])
            (λ request. (request ≡ self)
            × ((line : List ℕ) → IsRead self line → 0 < length line)) }
    {
        if self.is_begun() { Some(self) } else { None }
    }

    /// Appends a piece to the request. Bytes after the first `MOST_KEPT` ones are dropped.
    pub(crate) fn keep(&mut self, piece: &[u8])
        ensures { (line : List ℕ) → IsRead self.old line → IsRead self.new (line ++ piece.now) }
    {
        if self.is_lost {
            return;
        }
        if piece.len() == 0 {
            return;
        }
        let room = (MOST_KEPT - self.text.len()).min(piece.len());
        match self.text.extend_from_slice(&piece[..room]) {
            Ok(()) => {}
            Err(_) => self.is_lost = true,
        }
    }
}
