//! The sorts of names in a specification.

ghost use Rattle.std.specs.Prelude.{
  ◌≡◌,
  ◌++◌,
  ◌-◌,
  ◌∷◌,
  [],
  All,
  IfOk,
  IfSome,
  OnOk,
  drop,
  flat_map,
  length,
  map,
  option_map,
  slice_get,
  take,
};
ghost use Rattle.rec_syntax.specs.Parts.{
  IsDeclaration,
  IsGroup,
  Within,
  declaration_of,
  group_of,
  words_of,
};
ghost use Rattle.rec_sorts.specs.Lookup.{symbol, symbols};
ghost use Rattle.rec_check.specs.Errors.{clash};
ghost use Rattle.rec_check.specs.Lookups.{
  IsScope,
  all_sorts,
  argument_sorts,
  ill_filled_among,
  sort_named,
};
ghost use Rattle.rec_check.specs.Named.{as_nodes, as_word, as_words};
ghost use Rattle.rec_check.specs.Walks.{ill_sorted_among, misfits_of, unlike_heads};

use crate::located::{Counted, Word};
use crate::names::Names;
use crate::words::{declared_words, sort_words, word_at};
use rec_syntax::{Declaration, Group, Span, Syntax};
use std::alloc::{AllocError, Global};

/// The symbols and variables of a specification, by the numbers of their names.
#[derive(Drop)]
pub struct Scope<'a> {
    syntax: &'a Syntax,
    names: Names<'a>,
    /// The sort of each of them, by number.
    sorts: Vec<Word<'a>>,
    /// The names of the declared sorts.
    known: Names<'a>,
}

/// Appends the sort of each of these symbols.
fn push_own_sorts<'a>(
    syntax: &'a Syntax,
    declarations: &[Declaration],
    words: &mut Vec<Word<'a>>,
) -> Result<(), AllocError>
    requires { All (IsDeclaration syntax.now.source) declarations.now }
    ensures { OnOk result (as_words words.new.items ≡ as_words words.old.items
        ++ map (λ d. d.sort) (map (declaration_of syntax.now.source) declarations.now)) }
{
    for declaration in declarations {
        words.push(word_at(syntax, declaration.sort))?;
    }
    Ok(())
}

/// Appends the sort of a group's variables, once for each variable.
fn push_sort_of_each<'a>(
    syntax: &'a Syntax,
    group: &Group,
    words: &mut Vec<Word<'a>>,
) -> Result<(), AllocError>
    requires { IsGroup syntax.now.source group.now }
    ensures { OnOk result (as_words words.new.items ≡ as_words words.old.items
        ++ map (λ _. (group_of syntax.now.source group.now).sort)
        ((group_of syntax.now.source group.now).first
        ∷ (group_of syntax.now.source group.now).others)) }
{
    let sort = word_at(syntax, group.sort);
    words.push(sort)?;
    for _word in group.others.as_slice() {
        words.push(sort)?;
    }
    Ok(())
}

/// Appends the sorts of the variables of these groups.
fn push_sorts_of_groups<'a>(
    syntax: &'a Syntax,
    groups: &[Group],
    words: &mut Vec<Word<'a>>,
) -> Result<(), AllocError>
    requires { All (IsGroup syntax.now.source) groups.now }
    ensures { OnOk result (as_words words.new.items ≡ as_words words.old.items
        ++ flat_map (λ v. map (λ _. v.sort) (v.first ∷ v.others))
        (map (group_of syntax.now.source) groups.now)) }
{
    for group in groups {
        push_sort_of_each(syntax, group, words)?;
    }
    Ok(())
}

/// Returns the sort of each symbol and of each variable.
fn sorts_of_all<'a>(alloc: Global, syntax: &'a Syntax) -> Result<Vec<Word<'a>>, AllocError>
    ensures { IfOk result (λ v. as_words v.items ≡ all_sorts syntax.now.spec) }
{
    let mut sorts = Vec::new(alloc);
    push_own_sorts(syntax, syntax.constructors(), &mut sorts)?;
    push_own_sorts(syntax, syntax.operators(), &mut sorts)?;
    push_sorts_of_groups(syntax, syntax.groups(), &mut sorts)?;
    Ok(sorts)
}

/// Returns the declaration of the symbol with this number.
pub(crate) fn symbol_numbered<'a>(syntax: &'a Syntax, number: usize) -> Option<&'a Declaration>
    ensures symbol { option_map (λ d. declaration_of syntax.now.source d.now) result
        ≡ slice_get (symbols syntax.now.spec) number }
    ensures sound { IfSome result (λ d. IsDeclaration syntax.now.source d.now) }
{
    let constructors = syntax.constructors();
    let operators = syntax.operators();
    if number < constructors.len() {
        return Some(&constructors[number]);
    }
    let rest = number - constructors.len();
    if rest < operators.len() {
        Some(&operators[rest])
    } else {
        None
    }
}

impl<'a> Scope<'a> {
    /// Returns the scope of a specification.
    pub fn of(alloc: Global, syntax: &'a Syntax) -> Result<Self, AllocError>
        ensures scope { IfOk result IsScope }
        ensures same { IfOk result (λ s. s.syntax.now ≡ syntax.now) }
    {
        let words = declared_words(alloc, syntax)?;
        let names = Names::of(alloc, &words)?;
        let sorts = sorts_of_all(alloc, syntax)?;
        let declared = sort_words(alloc, syntax)?;
        let known = Names::of(alloc, &declared)?;
        Ok(Scope {
            syntax,
            names,
            sorts,
            known,
        })
    }

    /// Returns whether two sorts are declared and differ.
    fn do_clash(&self, left: Option<&[u8]>, right: Option<&[u8]>) -> bool
        requires { IsScope self.now }
        ensures { result ≡ clash self.now.syntax.now.spec (option_map (λ s. s.now) left.entry)
            (option_map (λ s. s.now) right.entry) }
    {
        match (left, right) {
            (Some(left), Some(right)) => {
                self.known.has(left) && self.known.has(right) && left != right
            }
            _ => false,
        }
    }

    /// Returns the declaration of the symbol with this name.
    fn declaration(&self, name: &[u8]) -> Option<&'a Declaration>
        requires { IsScope self.now }
        ensures symbol { option_map (λ d. declaration_of self.now.syntax.now.source d.now) result
            ≡ symbol self.now.syntax.now.spec name.now }
        ensures sound { IfSome result (λ d. IsDeclaration self.now.syntax.now.source d.now) }
    {
        match self.names.number(name) {
            Some(number) => symbol_numbered(self.syntax, number),
            None => None,
        }
    }

    /// Returns the sort of a name.
    pub fn sort(&self, name: &[u8]) -> Option<&'a [u8]>
        requires { IsScope self.now }
        ensures { option_map (λ s. s.now) result ≡ sort_named self.now.syntax.now.spec name.now }
    {
        match self.names.number(name) {
            Some(number) => self.sort_numbered(number),
            None => None,
        }
    }

    /// Returns the sort with this number.
    fn sort_numbered(&self, number: usize) -> Option<&'a [u8]>
        ensures { option_map (λ s. s.now) result
            ≡ option_map (λ w. w.bytes.now) (slice_get self.now.sorts.items number) }
    {
        if number < self.sorts.len() {
            Some(self.sorts[number].bytes)
        } else {
            None
        }
    }

    /// Returns the declared sorts of the arguments of a name.
    fn arguments(&self, name: &[u8]) -> &'a [Span]
        requires { IsScope self.now }
        ensures sorts { words_of self.now.syntax.now.source result.now
            ≡ argument_sorts self.now.syntax.now.spec name.now }
        ensures within { All (Within self.now.syntax.now.source) result.now }
    {
        match self.declaration(name) {
            Some(declaration) => declaration.arguments.as_slice(),
            None => &[],
        }
    }

    /// Returns the words with the wrong number of arguments.
    pub fn ill_filled_words(
        &self,
        alloc: Global,
        nodes: &[Counted<'a>],
    ) -> Result<Vec<Word<'a>>, AllocError>
        requires { IsScope self.now }
        ensures { IfOk result (λ v. as_words v.items
            ≡ ill_filled_among self.now.syntax.now.spec (as_nodes nodes.now)) }
    {
        let mut found = Vec::new(alloc);
        for node in nodes {
            if node.count != self.arguments(node.word.bytes).len() {
                found.push(node.word)?;
            }
        }
        Ok(found)
    }

    /// Appends the heads whose sort clashes with the declared one, if there are as many heads as
    /// sorts.
    fn push_misfits(
        &self,
        heads: &[Word<'a>],
        sorts: &[Span],
        found: &mut Vec<Word<'a>>,
    ) -> Result<(), AllocError>
        requires scope { IsScope self.now }
        requires within { All (Within self.now.syntax.now.source) sorts.now }
        ensures { OnOk result (as_words found.new.items ≡ as_words found.old.items
            ++ misfits_of self.now.syntax.now.spec (as_words heads.now)
            (words_of self.now.syntax.now.source sorts.now)) }
    {
        if heads.len() != sorts.len() {
            return Ok(());
        }
        for (head, sort) in heads.iter().zip(sorts) {
            let due = self.syntax.word(*sort);
            if self.do_clash(self.sort(head.bytes), Some(due)) {
                found.push(*head)?;
            }
        }
        Ok(())
    }

    /// Appends the arguments of a node that have the wrong sort. They are on top of a stack of
    /// heads; the node's word replaces them.
    fn push_ill_sorted(
        &self,
        node: Counted<'a>,
        heads: &mut Vec<Word<'a>>,
        found: &mut Vec<Word<'a>>,
    ) -> Result<(), AllocError>
        requires { IsScope self.now }
        ensures heads { OnOk result (heads.new.items
            ≡ take (length heads.old.items - node.entry.count) heads.old.items
            ++ node.entry.word ∷ []) }
        ensures found { OnOk result (as_words found.new.items ≡ as_words found.old.items
            ++ misfits_of self.now.syntax.now.spec
            (as_words (drop (length heads.old.items - node.entry.count) heads.old.items))
            (argument_sorts self.now.syntax.now.spec node.entry.word.bytes.now)) }
    {
        let base = heads.len().saturating_sub(node.count);
        let sorts = self.arguments(node.word.bytes);
        self.push_misfits(&heads[base..], sorts, found)?;
        heads.truncate(base);
        heads.push(node.word)?;
        Ok(())
    }

    /// Returns the arguments of the wrong sort. The walk keeps a stack of the heads of complete
    /// terms.
    pub fn ill_sorted_words(
        &self,
        alloc: Global,
        nodes: &[Counted<'a>],
    ) -> Result<Vec<Word<'a>>, AllocError>
        requires { IsScope self.now }
        ensures { IfOk result (λ v. as_words v.items
            ≡ ill_sorted_among self.now.syntax.now.spec [] (as_nodes nodes.now)) }
    {
        let mut heads = Vec::new(alloc);
        let mut found = Vec::new(alloc);
        for node in nodes {
            self.push_ill_sorted(*node, &mut heads, &mut found)?;
        }
        Ok(found)
    }

    /// Appends the left one of two heads if their sorts clash.
    pub(crate) fn push_unlike(
        &self,
        left: Word<'a>,
        right: Word<'_>,
        found: &mut Vec<Word<'a>>,
    ) -> Result<(), AllocError>
        requires { IsScope self.now }
        ensures { OnOk result (as_words found.new.items ≡ as_words found.old.items
            ++ unlike_heads self.now.syntax.now.spec (as_word left.entry) (as_word right.entry)) }
    {
        if self.do_clash(self.sort(left.bytes), self.sort(right.bytes)) {
            found.push(left)?;
        }
        Ok(())
    }
}
