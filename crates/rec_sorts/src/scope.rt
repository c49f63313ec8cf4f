//! The declarations of a specification, by the numbers of its names and sorts.

ghost use Rattle.std.specs.Prelude.{◌≡◌, Option};
ghost use Rattle.rec_syntax.specs.Parts.{Within};
ghost use Rattle.rec_syntax.specs.Lexemes.{word_of};

use crate::letters::Meaning;
use crate::names::Names;
use rec_syntax::Span;

/// The declared symbols and variables. A sort that is not declared has no number.
#[derive(Drop)]
pub struct Scope<'a> {
    pub source: &'a [u8],
    /// The numbers of the symbols, followed by those of the variables.
    pub words: Names<'a>,
    /// The sort of each symbol and variable.
    pub sorts: Vec<Option<u32>>,
    /// The argument sorts of each symbol.
    pub arguments: Vec<Vec<Option<u32>>>,
    pub constructors: u32,
    pub symbols: u32,
}

impl<'a> Scope<'a> {
    ghost use Rattle.rec_sorts.specs.Scope.{meaning_of, sort_at, arguments_at, is_operator};

    /// Returns the bytes of a name in the source.
    pub fn word(&self, span: Span) -> &'a [u8]
        requires { Within self.now.source.now span }
        ensures { result.now ≡ (word_of self.now.source.now span).bytes }
    {
        &self.source[span.from..span.to]
    }

    /// Returns the symbol or variable that a name denotes.
    pub fn meaning(&self, name: &[u8]) -> Option<Meaning>
        ensures { result ≡ meaning_of self.now name.now }
    {
        let number = self.words.number(name)?;
        Some(if number < self.symbols {
            Meaning::Symbol(number)
        } else {
            Meaning::Variable(number - self.symbols)
        })
    }

    /// Returns the number of the sort of a symbol or variable.
    pub fn sort(&self, meaning: Option<Meaning>) -> Option<u32>
        ensures { result ≡ sort_at self.now meaning }
    {
        let number = match meaning? {
            Meaning::Symbol(number) => number as usize,
            Meaning::Variable(number) => number as usize + self.symbols as usize,
        };
        *self.sorts.get(number)?
    }

    /// Returns the numbers of the argument sorts of a symbol; a variable has none.
    pub fn arguments(&self, meaning: Option<Meaning>) -> &[Option<u32>]
        ensures { result.now ≡ arguments_at self.now meaning }
    {
        match meaning {
            Some(Meaning::Symbol(number)) => match self.arguments.get(number as usize) {
                Some(sorts) => sorts,
                None => &[],
            },
            _ => &[],
        }
    }

    /// Returns whether this is an operator.
    pub fn is_operator(&self, meaning: Option<Meaning>) -> bool
        ensures { result ≡ is_operator self.now meaning }
    {
        match meaning {
            Some(Meaning::Symbol(number)) => self.constructors <= number,
            _ => false,
        }
    }
}
