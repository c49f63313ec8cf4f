//! The stack of jobs of a text over several lines.

ghost use Rattle.std.specs.Prelude.{◌≡◌, ◌+◌, ◌≤◌, [], IfOk, IsOkUnless, OnOk, vec_len};
ghost use Rattle.rx_render.specs.Layout.{Adds, Deepens, IsBlank, enclosing, room};

use rx_term::{Symbol, Term};
use rx_text::WriteFault;
use std::alloc::Global;

/// The greatest number of blanks of a level.
const BLANKS: [u8; 255] = [b' '; 255];

/// A part of the text that is written at once.
#[derive(Clone, Copy, Drop)]
pub enum Atom {
    /// One byte.
    Byte(u8),
    /// An integer.
    Integer(i32),
    /// The name of a symbol.
    Name(Symbol),
    /// A line feed, and the blanks of a line.
    Break,
}

/// A part of the text.
#[derive(Clone, Copy, Drop)]
pub enum Piece {
    /// A part that is written at once.
    Atom(Atom),
    /// A tree.
    Tree(Term),
    /// The annotations of a tree in braces, if it has some.
    Notes(Term),
    /// The items of a list, separated by commas.
    Items(Term),
    /// The items of a list, each after a comma.
    Others(Term),
}

/// A part of the text that is still to be written.
#[derive(Clone, Copy, Drop)]
pub struct Job {
    /// The part.
    pub piece: Piece,
    /// The number of blanks at the start of its lines.
    pub margin: usize,
}

impl Job {
    /// Creates the job of an atom on a line that starts with `margin` blanks.
    pub fn atom(atom: Atom, margin: usize) -> Job
        ensures { result ≡ record { piece = Piece.Atom atom; margin = margin } }
    {
        Job {
            piece: Piece::Atom(atom),
            margin,
        }
    }
}

/// The marks before and after a piece.
#[derive(Clone, Copy, Drop)]
pub struct Marks(pub u8, pub u8);

/// The division of the text of a term into lines.
#[derive(Clone, Copy, Drop)]
pub struct Indentation {
    /// The number of blanks for each level.
    pub indent: u8,
    /// The greatest number of bytes of a line on which a term with parts stays whole. The blanks
    /// before the term count, a comma after it does not. Without a width each term with parts is
    /// spread over several lines.
    pub width: Option<u32>,
}

/// The jobs that are left, and the blanks for their lines.
#[derive(Drop)]
pub struct Layout {
    /// The division of the text into lines.
    pub indentation: Indentation,
    /// At least as many blanks as any remaining line starts with.
    pub blanks: Vec<u8>,
    /// The jobs that are left. The last one is done first.
    pub jobs: Vec<Job>,
}

impl Layout {
    /// Creates a layout without jobs.
    pub fn new(alloc: Global, indentation: Indentation) -> Layout
        ensures indentation { result.indentation ≡ indentation }
        ensures blank { IsBlank result }
        ensures none { result.jobs.items ≡ [] }
    {
        Layout {
            indentation,
            blanks: Vec::new(alloc),
            jobs: Vec::new(alloc),
        }
    }

    /// Pushes jobs. The last one is done first.
    pub fn leave(&mut self, jobs: &[Job]) -> Result<(), WriteFault>
        requires { IsBlank self.old }
        ensures left { OnOk result (Adds jobs.now self.old self.new) }
        ensures memory { IsOkUnless result WriteFault.Memory }
    {
        match self.jobs.extend_from_slice(jobs) {
            Ok(()) => Ok(()),
            Err(_) => Err(WriteFault::Memory),
        }
    }

    /// Returns the number of blanks of the next level, and makes enough blanks for it.
    fn deepen(&mut self, margin: usize) -> Result<usize, WriteFault>
        requires within { margin ≤ room self.old }
        requires blank { IsBlank self.old }
        ensures deeper { IfOk result (λ inner. Deepens margin self.old self.new inner) }
        ensures memory { IsOkUnless result WriteFault.Memory }
    {
        let indent = usize::from(self.indentation.indent);
        if self.blanks.len() - margin >= indent {
            return Ok(margin + indent);
        }
        match self.blanks.extend_from_slice(&BLANKS[..indent]) {
            Ok(()) => Ok(margin + indent),
            Err(_) => Err(WriteFault::Memory),
        }
    }

    /// Pushes a piece on lines of its own between two marks.
    pub fn enclose(&mut self, marks: Marks, piece: Piece, margin: usize) -> Result<(), WriteFault>
        requires within { margin ≤ room self.old }
        requires blank { IsBlank self.old }
        ensures left { OnOk result
            (Adds (enclosing self.old.indentation.indent margin marks.0 piece marks.1)
            self.old self.new) }
        ensures enough { OnOk result (margin + self.old.indentation.indent ≤ room self.new) }
        ensures memory { IsOkUnless result WriteFault.Memory }
    {
        let inner = self.deepen(margin)?;
        self.leave(&[
            Job::atom(Atom::Byte(marks.1), margin),
            Job::atom(Atom::Break, margin),
            Job {
                piece,
                margin: inner,
            },
            Job::atom(Atom::Break, inner),
            Job::atom(Atom::Byte(marks.0), margin),
        ])
    }
}
