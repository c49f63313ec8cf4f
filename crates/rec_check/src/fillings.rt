//! Calls with holes, and ground terms that fill the holes. No contract states a property of
//! them: each call that is built from them is checked on its own.

ghost use Rattle.rec_syntax.specs.Parts.{IsDeclaration, Within};
ghost use Rattle.rec_check.specs.Inner.Grounds.{IsAsker};

use crate::names::Names;
use crate::scope::symbol_numbered;
use crate::uncovered::Asker;
use crate::words::sort_words;
use rec_sorts::{Letter, Meaning};
use rec_syntax::{Declaration, Span, Syntax};
use std::alloc::{AllocError, Global};

/// The largest number of sorts, symbols or rules for which missing cases are searched.
pub(crate) const MOST: usize = 100_000;
/// The largest size of a term, in postfix items.
pub(crate) const MOST_LETTERS: usize = 100;
/// The number of terms that are kept of a sort.
const MOST_TERMS: usize = 6;
/// The largest depth of such a term.
const DEEPEST: usize = 8;

/// Returns a hole, which any ground term of this sort may fill.
fn hole(sort: u32) -> Letter {
    Letter {
        meaning: Meaning::Variable(sort),
        count: 0,
    }
}

/// Returns the number of a sort.
fn sort_number(syntax: &Syntax, sorts: &Names<'_>, sort: Span) -> u32
    requires { Within syntax.now.source sort }
{
    match sorts.number(syntax.word(sort)) {
        Some(number) if number < MOST => number as u32,
        _ => 0,
    }
}

/// Returns a symbol applied to holes.
fn open_call(
    alloc: Global,
    syntax: &Syntax,
    sorts: &Names<'_>,
    symbol: u32,
    declaration: &Declaration,
) -> Result<Vec<Letter>, AllocError>
    requires { IsDeclaration syntax.now.source declaration.now }
{
    let mut letters = Vec::new(alloc);
    for sort in declaration.arguments.as_slice() {
        letters.push(hole(sort_number(syntax, sorts, *sort)))?;
    }
    let count = letters.len();
    letters.push(Letter {
        meaning: Meaning::Symbol(symbol),
        count: if count < MOST { count as u32 } else { 0 },
    })?;
    Ok(letters)
}

/// Returns whether these items have no hole and are not too many.
fn is_whole(letters: &[Letter]) -> bool {
    for letter in letters {
        if let Meaning::Variable(_) = letter.meaning {
            return false;
        }
    }
    letters.len() <= MOST_LETTERS
}

/// The symbols that ground terms are made of.
#[derive(Clone, Copy, Drop)]
pub(crate) enum Reach {
    /// Only constructors.
    Constructors,
    /// Constructors, and used operators without rules.
    Operators,
}

/// Picks the term for each hole of a call, by its number among the terms of the hole's sort.
#[derive(Clone, Copy, Drop)]
pub(crate) enum Picker {
    /// The first terms.
    First,
    /// First and second terms, by the bits of a number. `weight` is that of the next hole's bit.
    Bits { bits: usize, weight: usize },
    /// Different terms, from this number on.
    Different(usize),
    /// The last terms.
    Last,
}

impl Picker {
    /// Returns the number of the next term, among `count`.
    fn pick(&mut self, count: usize) -> usize {
        match *self {
            Picker::First => 0,
            Picker::Bits { bits, weight } => {
                *self = Picker::Bits {
                    bits,
                    weight: weight / 2,
                };
                if weight == 0 { 0 } else { bits / weight % 2 }
            }
            Picker::Different(number) => {
                *self = Picker::Different(number.saturating_add(1));
                number
            }
            Picker::Last => count.saturating_sub(1),
        }
    }
}

/// The symbols and terms that can fill the holes of a sort.
#[derive(Drop)]
pub(crate) struct Filling {
    /// The symbols, constructors first.
    symbols: Vec<u32>,
    /// Some terms of these symbols.
    terms: Vec<Vec<Letter>>,
}

impl Filling {
    /// Returns the term that is picked, if there are terms.
    fn term(&self, picker: &mut Picker) -> Option<&[Letter]> {
        let count = self.terms.len();
        if count == 0 {
            return None;
        }
        Some(&self.terms[picker.pick(count) % count])
    }

    /// Returns whether a term is kept.
    fn has(&self, term: &[Letter]) -> bool {
        for other in self.terms.as_slice() {
            if **other == *term {
                return true;
            }
        }
        false
    }

    /// Keeps a term, unless there are enough, or it has holes, or it is kept already.
    fn keep(&mut self, term: Vec<Letter>) -> Result<(), AllocError> {
        if self.terms.len() < MOST_TERMS && is_whole(&term) && !self.has(&term) {
            self.terms.push(term)?;
        }
        Ok(())
    }
}

/// Returns a term that fills `letter`, if it is a hole and there is a term.
fn term_for<'f>(
    fillings: &'f [Filling],
    letter: Letter,
    picker: &mut Picker,
) -> Option<&'f [Letter]> {
    match letter.meaning {
        Meaning::Variable(sort) => fillings.get(sort as usize)?.term(picker),
        Meaning::Symbol(_) => None,
    }
}

/// Returns the symbols that can fill `letter`, if it is a hole.
fn symbols_of(fillings: &[Filling], letter: Letter) -> &[u32] {
    match letter.meaning {
        Meaning::Variable(sort) => match fillings.get(sort as usize) {
            Some(filling) => &filling.symbols,
            None => &[],
        },
        Meaning::Symbol(_) => &[],
    }
}

/// Fills the holes of a term with the terms that are picked.
fn fill_holes(
    alloc: Global,
    fillings: &[Filling],
    letters: &[Letter],
    picker: Picker,
) -> Result<Vec<Letter>, AllocError> {
    let mut whole = Vec::new(alloc);
    let mut picker = picker;
    for letter in letters {
        if whole.len() <= MOST_LETTERS {
            match term_for(fillings, *letter, &mut picker) {
                Some(term) => whole.extend_from_slice(term)?,
                None => whole.push(*letter)?,
            }
        }
    }
    Ok(whole)
}

/// Returns the number of holes of a term.
pub(crate) fn count_holes(letters: &[Letter]) -> usize {
    let mut holes: usize = 0;
    for letter in letters {
        if let Meaning::Variable(_) = letter.meaning {
            holes = holes.saturating_add(1);
        }
    }
    holes
}

/// The symbols of a specification applied to holes, and the fillings of each sort by the symbols in
/// reach.
#[derive(Drop)]
pub(crate) struct Shapes {
    pub opened: Vec<Vec<Letter>>,
    fillings: Vec<Filling>,
    reach: Reach,
}

impl Shapes {
    /// Returns the shapes of a specification.
    pub(crate) fn of(alloc: Global, asker: &Asker<'_>, reach: Reach) -> Result<Self, AllocError>
        requires { IsAsker asker.now }
    {
        let mut shapes = Shapes {
            opened: Vec::new(alloc),
            fillings: Vec::new(alloc),
            reach,
        };
        shapes.fill(alloc, asker)?;
        Ok(shapes)
    }

    /// Computes all shapes, and terms of each sort.
    fn fill(&mut self, alloc: Global, asker: &Asker<'_>) -> Result<(), AllocError>
        requires { IsAsker asker.now }
    {
        self.push_all(alloc, asker)?;
        for _depth in 0..DEEPEST {
            self.deepen(alloc)?;
        }
        Ok(())
    }

    /// Adds all sorts and symbols.
    fn push_all(&mut self, alloc: Global, asker: &Asker<'_>) -> Result<(), AllocError>
        requires { IsAsker asker.now }
    {
        let words = sort_words(alloc, asker.checked.syntax())?;
        let sorts = Names::of(alloc, &words)?;
        self.push_sorts(alloc, words.len())?;
        self.push_symbols(alloc, asker, &sorts)
    }

    /// Fills the holes of a term with the terms that are picked.
    pub(crate) fn fill_holes(
        &self,
        alloc: Global,
        letters: &[Letter],
        picker: Picker,
    ) -> Result<Vec<Letter>, AllocError> {
        fill_holes(alloc, &self.fillings, letters, picker)
    }

    /// Returns the symbols of the sort of the hole at index `at`.
    pub(crate) fn symbols_for(&self, letters: &[Letter], at: usize) -> &[u32] {
        match letters.get(at) {
            Some(letter) => symbols_of(&self.fillings, *letter),
            None => &[],
        }
    }

    /// Adds `count` sorts without terms.
    fn push_sorts(&mut self, alloc: Global, count: usize) -> Result<(), AllocError> {
        for _sort in 0..count {
            self.fillings.push(Filling {
                symbols: Vec::new(alloc),
                terms: Vec::new(alloc),
            })?;
        }
        Ok(())
    }

    /// Adds all symbols.
    fn push_symbols(
        &mut self,
        alloc: Global,
        asker: &Asker<'_>,
        sorts: &Names<'_>,
    ) -> Result<(), AllocError>
        requires { IsAsker asker.now }
    {
        let syntax = asker.checked.syntax();
        for symbol in 0..asker.checked.symbols() {
            if let Some(declaration) = symbol_numbered(syntax, symbol as usize) {
                self.opened
                    .push(open_call(alloc, syntax, sorts, symbol, declaration)?)?;
                if self.is_in_reach(asker, symbol) {
                    let sort = sort_number(syntax, sorts, declaration.sort);
                    self.push_symbol(sort, symbol)?;
                }
            }
        }
        Ok(())
    }

    /// Returns whether a symbol fills holes.
    fn is_in_reach(&self, asker: &Asker<'_>, symbol: u32) -> bool
        requires { IsAsker asker.now }
    {
        match self.reach {
            Reach::Constructors => symbol < asker.checked.constructors(),
            Reach::Operators => asker.may_fill(symbol),
        }
    }

    /// Adds a symbol of a sort.
    fn push_symbol(&mut self, sort: u32, symbol: u32) -> Result<(), AllocError> {
        if let Some(filling) = self.fillings.get_mut(sort as usize) {
            filling.symbols.push(symbol)?;
        }
        Ok(())
    }

    /// Returns the number of symbols of a sort.
    fn count_symbols(&self, sort: usize) -> usize {
        match self.fillings.get(sort) {
            Some(filling) => filling.symbols.len(),
            None => 0,
        }
    }

    /// Adds terms that are one level deeper than the last ones.
    fn deepen(&mut self, alloc: Global) -> Result<(), AllocError> {
        for sort in 0..self.fillings.len() {
            for i in 0..self.count_symbols(sort) {
                self.grow(alloc, sort, i, Picker::First)?;
                self.grow(alloc, sort, i, Picker::Last)?;
            }
        }
        Ok(())
    }

    /// Returns a symbol of a sort applied to holes, if the sort needs more terms.
    fn wanted_letters(&self, sort: usize, i: usize) -> Option<&[Letter]> {
        let filling = self.fillings.get(sort)?;
        if filling.terms.len() >= MOST_TERMS {
            return None;
        }
        let symbol = filling.symbols.get(i)?;
        Some(self.opened.get(*symbol as usize)?.as_slice())
    }

    /// Adds a term of a sort: a symbol applied to known terms.
    fn grow(
        &mut self,
        alloc: Global,
        sort: usize,
        i: usize,
        picker: Picker,
    ) -> Result<(), AllocError> {
        let Some(open) = self.wanted_letters(sort, i) else {
            return Ok(());
        };
        let term = fill_holes(alloc, &self.fillings, open, picker)?;
        if let Some(filling) = self.fillings.get_mut(sort) {
            filling.keep(term)?;
        }
        Ok(())
    }
}
