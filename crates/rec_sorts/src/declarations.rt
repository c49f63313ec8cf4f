//! The declarations of a specification, and the rules S1 to S4 for them.

ghost use Rattle.std.specs.Prelude.{◌≡◌, ◌+◌, ◌^◌, ◌<◌, [], All, IfOk, OnOk, None, length, map};
ghost use Rattle.rec_syntax.specs.Parts.{Within, IsDeclaration, IsGroup, words_of, declaration_of};
ghost use Rattle.rec_syntax.specs.Parts.{group_of};
ghost use Rattle.rec_syntax.specs.Lexemes.{word_of};
ghost use Rattle.rec_sorts.specs.Names.{given_to, numbers_after, least_repeated};

use crate::names::Names;
use crate::places::{earlier_place, number, place_where};
use rec_syntax::{Declaration, Group, Span};
use std::alloc::{AllocError, Global};

/// The declared sorts.
#[derive(Drop)]
pub struct Sorts<'a> {
    pub source: &'a [u8],
    pub names: Names<'a>,
}

/// The names that were declared so far, each with its sort, and the argument sorts of symbols.
#[derive(Drop)]
pub struct Declared {
    pub words: Vec<Span>,
    pub sorts: Vec<Option<u32>>,
    pub arguments: Vec<Vec<Option<u32>>>,
    /// The least offset of a sort that is not declared.
    pub unknown: Option<u32>,
}

/// Numbers the names one after another, from `first` on. Returns the least offset of one that had a
/// number already.
pub fn number_words<'a>(
    names: &mut Names<'a>,
    source: &'a [u8],
    words: &[Span],
    first: usize,
) -> Result<Option<u32>, AllocError>
    requires within { All (Within source.now) words.now }
    requires fits { first + length words.now < 2 ^ 64 }
    ensures numbers { OnOk result (given_to names.new ≡ numbers_after (given_to names.old) first
        (words_of source.now words.now)) }
    ensures repeated { IfOk result
        (λ r. r ≡ least_repeated (given_to names.old) first (words_of source.now words.now)) }
{
    let mut repeated = None;
    for (i, word) in words.iter().enumerate() {
        let at = number(word.from)?;
        let fresh = names.give(&source[word.from..word.to], number(first + i)?)?;
        repeated = earlier_place(repeated, place_where(!fresh, at));
    }
    Ok(repeated)
}

impl<'a> Sorts<'a> {
    ghost use Rattle.rec_sorts.specs.Declaring.{sort_numbers, unnumbered, least_unnumbered};

    /// Returns the number of a sort, and the offset of the name if it has none.
    fn find(&self, word: Span) -> Result<(Option<u32>, Option<u32>), AllocError>
        requires { Within self.now.source.now word }
        ensures sort { IfOk result
            (λ r. r.0 ≡ given_to self.now.names (word_of self.now.source.now word).bytes) }
        ensures missing { IfOk result
            (λ r. r.1 ≡ unnumbered (given_to self.now.names) (word_of self.now.source.now word)) }
    {
        let at = number(word.from)?;
        let sort = self.names.number(&self.source[word.from..word.to]);
        Ok((sort, place_where(sort.is_none(), at)))
    }

    /// Returns the numbers of some sorts, and the least offset of one that has none.
    fn find_all(
        &self,
        alloc: Global,
        words: &[Span],
    ) -> Result<(Vec<Option<u32>>, Option<u32>), AllocError>
        requires { All (Within self.now.source.now) words.now }
        ensures sorts { IfOk result (λ r. r.0.items ≡ sort_numbers (given_to self.now.names)
            (words_of self.now.source.now words.now)) }
        ensures missing { IfOk result (λ r. r.1 ≡ least_unnumbered (given_to self.now.names)
            (words_of self.now.source.now words.now)) }
    {
        let mut sorts = Vec::new(alloc);
        let mut unknown = None;
        for word in words {
            let (sort, missing) = self.find(*word)?;
            unknown = earlier_place(unknown, missing);
            sorts.push(sort)?;
        }
        Ok((sorts, unknown))
    }
}

impl Declared {
    ghost use Rattle.rec_sorts.specs.Declaring.{Adds, added_by_symbol, added_by_symbols};
    ghost use Rattle.rec_sorts.specs.Declaring.{added_by_group, added_by_groups};

    /// Returns an empty list of declarations.
    pub fn new(alloc: Global) -> Self
        ensures words { result.words.items ≡ [] }
        ensures sorts { result.sorts.items ≡ [] }
        ensures arguments { result.arguments.items ≡ [] }
        ensures unknown { result.unknown ≡ None }
    {
        Declared {
            words: Vec::new(alloc),
            sorts: Vec::new(alloc),
            arguments: Vec::new(alloc),
            unknown: None,
        }
    }

    /// Adds the declaration of a symbol.
    fn symbol(
        &mut self,
        alloc: Global,
        sorts: &Sorts,
        declaration: &Declaration,
    ) -> Result<(), AllocError>
        requires { IsDeclaration sorts.now.source.now declaration.now }
        ensures { OnOk result (Adds sorts.now.source.now (given_to sorts.now.names) self.old
            self.new (added_by_symbol (given_to sorts.now.names)
            (declaration_of sorts.now.source.now declaration.now))) }
    {
        let (arguments, unknown) = sorts.find_all(alloc, declaration.arguments.as_slice())?;
        let (sort, missing) = sorts.find(declaration.sort)?;
        self.unknown = earlier_place(self.unknown, earlier_place(unknown, missing));
        self.words.push(declaration.name)?;
        self.sorts.push(sort)?;
        self.arguments.push(arguments)?;
        Ok(())
    }

    /// Adds the declarations of symbols.
    pub fn symbols(
        &mut self,
        alloc: Global,
        sorts: &Sorts,
        declarations: &[Declaration],
    ) -> Result<(), AllocError>
        requires { All (IsDeclaration sorts.now.source.now) declarations.now }
        ensures { OnOk result (Adds sorts.now.source.now (given_to sorts.now.names) self.old
            self.new (added_by_symbols (given_to sorts.now.names)
            (map (declaration_of sorts.now.source.now) declarations.now))) }
    {
        for declaration in declarations {
            self.symbol(alloc, sorts, declaration)?;
        }
        Ok(())
    }

    /// Adds the variables of one group.
    fn group(&mut self, sorts: &Sorts, group: &Group) -> Result<(), AllocError>
        requires { IsGroup sorts.now.source.now group.now }
        ensures { OnOk result (Adds sorts.now.source.now (given_to sorts.now.names) self.old
            self.new (added_by_group (given_to sorts.now.names)
            (group_of sorts.now.source.now group.now))) }
    {
        let (sort, missing) = sorts.find(group.sort)?;
        self.unknown = earlier_place(self.unknown, missing);
        self.words.push(group.first)?;
        self.sorts.push(sort)?;
        for word in group.others.as_slice() {
            self.words.push(*word)?;
            self.sorts.push(sort)?;
        }
        Ok(())
    }

    /// Adds the variables of all groups.
    pub fn groups(&mut self, sorts: &Sorts, groups: &[Group]) -> Result<(), AllocError>
        requires { All (IsGroup sorts.now.source.now) groups.now }
        ensures { OnOk result (Adds sorts.now.source.now (given_to sorts.now.names) self.old
            self.new (added_by_groups (given_to sorts.now.names)
            (map (group_of sorts.now.source.now) groups.now))) }
    {
        for group in groups {
            self.group(sorts, group)?;
        }
        Ok(())
    }
}
