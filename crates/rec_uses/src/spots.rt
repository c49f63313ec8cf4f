//! Lines and columns of a text.

ghost use Rattle.std.specs.Prelude.{◌≡◌, ◌+◌, ◌<◌, ◌≤◌, ◌^◌, length};
ghost use Rattle.rec_uses.specs.Inner.Cursors.{IsCursor};
ghost use Rattle.rec_uses.specs.Spots.{spot_behind, spot_of};

/// A location: a line and a column in bytes, both from 1.
#[derive(Clone, Copy, Debug, Drop, PartialEq, Eq)]
pub struct Spot {
    pub line: u64,
    pub column: u64,
}

impl Spot {
    /// The location of the first byte.
    const FIRST: Spot = Spot { line: 1, column: 1 };

    /// Returns the location after a byte.
    fn behind(self, byte: u8) -> Spot
        requires { (self.line < 2 ^ 63) × (self.column < 2 ^ 63) }
        ensures { result ≡ spot_behind self byte }
    {
        if byte == b'\n' {
            Spot {
                line: self.line + 1,
                column: 1,
            }
        } else {
            Spot {
                line: self.line,
                column: self.column + 1,
            }
        }
    }
}

/// A cursor that goes on through a text and has the location of its offset.
#[derive(Drop)]
pub struct Cursor<'a> {
    text: &'a [u8],
    at: usize,
    spot: Spot,
}

impl<'a> Cursor<'a> {
    /// Returns a cursor at the first byte.
    pub(crate) fn new(text: &'a [u8]) -> Cursor<'a>
        ensures { IsCursor text.now result }
    {
        Cursor {
            text,
            at: 0,
            spot: Spot::FIRST,
        }
    }

    /// Moves over one byte.
    fn step(&mut self)
        requires cursor { IsCursor self.old.text.now self.old }
        requires within { self.old.at < length self.old.text.now }
        ensures cursor { IsCursor self.old.text.now self.new }
        ensures at { self.new.at ≡ self.old.at + 1 }
    {
        self.spot = self.spot.behind(self.text[self.at]);
        self.at += 1;
    }

    /// Moves to the first byte if the cursor is after offset `end`.
    fn begin_before(&mut self, end: usize)
        requires { IsCursor self.old.text.now self.old }
        ensures cursor { IsCursor self.old.text.now self.new }
        ensures ordered { self.new.at ≤ end }
    {
        if end < self.at {
            self.at = 0;
            self.spot = Spot::FIRST;
        }
    }

    /// Moves to a greater offset.
    fn go_on(&mut self, end: usize)
        requires cursor { IsCursor self.old.text.now self.old }
        requires ordered { self.old.at ≤ end }
        requires within { end ≤ length self.old.text.now }
        ensures cursor { IsCursor self.old.text.now self.new }
        ensures at { self.new.at ≡ end }
    {
        for _index in self.at..end {
            self.step();
        }
    }

    /// Returns the location of an offset. The cost is the distance to the previous offset if that
    /// was not greater, and otherwise the offset itself.
    pub(crate) fn spot(&mut self, at: usize) -> Spot
        requires { IsCursor self.old.text.now self.old }
        ensures spot { result ≡ spot_of self.old.text.now at }
        ensures same { IsCursor self.old.text.now self.new }
    {
        let end = at.min(self.text.len());
        self.begin_before(end);
        self.go_on(end);
        self.spot
    }
}
