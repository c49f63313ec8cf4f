//! Matching of left-hand sides against terms whose variables are read as constants.

ghost use Rattle.std.specs.Prelude.{
  ◌≡◌,
  ◌++◌,
  ◌-◌,
  ◌<◌,
  ◌≤◌,
  IfOk,
  IfSome,
  List,
  None,
  OnOk,
  drop,
  false,
  length,
  map,
  option_map,
  take,
  true,
};
ghost use Rattle.rec_syntax.specs.Syntax as syntax;
ghost use Rattle.rec_syntax.specs.Syntax.{Spec};
ghost use Rattle.rec_sorts.specs.Numbering.{Named, named, named_by};
ghost use Rattle.rec_check.specs.Inner.Trials.{
  AreSizes,
  Asks,
  Binds,
  IsGiven,
  Matches,
  value_in,
};

use indexmap::IndexMap;
use rec_sorts::{Letter, Meaning};
use std::alloc::{AllocError, Global};

/// The values of a left-hand side's variables, by their numbers. A value is a subterm in postfix
/// form.
#[derive(Drop)]
pub(crate) struct Values<'a> {
    of: IndexMap<u32, &'a [Letter]>,
}

impl<'a> Values<'a> {
    /// Returns an empty substitution.
    pub(crate) fn new(alloc: Global) -> Self {
        Values {
            of: IndexMap::new(alloc),
        }
    }

    /// Removes all values.
    fn clear(&mut self)
        ensures { (variable : _) → value_in self.new variable ≡ None }
    {
        self.of.clear();
    }

    /// Returns the value of a variable.
    fn value(&self, variable: u32) -> Option<&'a [Letter]>
        ensures { option_map (λ p. p.now) result ≡ value_in self.now variable }
    {
        self.of.get(&variable).copied()
    }

    /// Sets the value of a variable.
    fn give(&mut self, variable: u32, part: &'a [Letter]) -> Result<(), AllocError>
        ensures { OnOk result (IsGiven self.old self.new variable part.entry.now) }
    {
        self.of.insert(variable, part)?;
        Ok(())
    }

    /// Binds a variable, or compares a value with the one that it has. Returns false if they
    /// differ.
    fn bind(&mut self, variable: u32, part: &'a [Letter]) -> Result<bool, AllocError>
        ensures { IfOk result (Binds variable part.entry.now self.old self.new) }
    {
        match self.value(variable) {
            Some(value) => Ok(same_letters(value, part)),
            None => {
                self.give(variable, part)?;
                Ok(true)
            }
        }
    }
}

/// Returns whether two postfix items are the same.
fn same_letter(left: Letter, right: Letter) -> bool
    ensures same { result ≡ true → left ≡ right }
    ensures other { result ≡ false → left ≡ right → ⊥ }
{
    left == right
}

/// Returns whether two terms have the same postfix items.
fn same_letters(left: &[Letter], right: &[Letter]) -> bool
    ensures same { result ≡ true → left.now ≡ right.now }
    ensures other { result ≡ false → left.now ≡ right.now → ⊥ }
{
    if left.len() != right.len() {
        return false;
    }
    for (i, letter) in left.iter().enumerate() {
        if !same_letter(*letter, right[i]) {
            return false;
        }
    }
    true
}

/// Terms in postfix form, and for each item the number of items of the subterm that ends with it.
#[derive(Clone, Copy, Drop)]
pub(crate) struct Terms<'t, 's> {
    pub letters: &'t [Letter],
    pub sizes: &'s [usize],
}

impl<'t, 's> Terms<'t, 's> {
    /// Returns the number of items before the last term.
    pub(crate) fn before_last(self) -> usize
        requires { AreSizes self.letters.now self.sizes.now }
        ensures within { result ≤ length self.entry.letters.now }
        ensures split { (y : Spec) (ms : List Named) (t : syntax.Term)
            → map (named_by y) self.entry.letters.now ≡ ms ++ named t → result ≡ length ms }
    {
        match self.sizes.split_last() {
            Some((size, _others)) => self.letters.len().saturating_sub(*size),
            None => 0,
        }
    }

    /// Splits the items, with their sizes.
    pub(crate) fn split_at(self, at: usize) -> (Terms<'t, 's>, Terms<'t, 's>)
        requires sizes { AreSizes self.letters.now self.sizes.now }
        requires within { at ≤ length self.letters.now }
        ensures front { result.0.letters.now ≡ take at self.entry.letters.now }
        ensures back { result.1.letters.now ≡ drop at self.entry.letters.now }
        ensures front_sizes { AreSizes result.0.letters.now result.0.sizes.now }
        ensures back_sizes { AreSizes result.1.letters.now result.1.sizes.now }
    {
        let (first, letters) = self.letters.split_at(at);
        let (first_sizes, sizes) = self.sizes.split_at(at);
        let front = Terms {
            letters: first,
            sizes: first_sizes,
        };
        (front, Terms { letters, sizes })
    }
}

/// Returns the size of the last term. `sizes` has the sizes of the subterms that end before its
/// last item.
fn size_of_last(letters: &[Letter], sizes: &[usize]) -> usize
    requires some { 0 < length letters.now }
    requires sizes { AreSizes (take (length letters.now - 1) letters.now) sizes.now }
    ensures { (y : Spec) (ms : List Named) (t : syntax.Term)
        → map (named_by y) letters.now ≡ ms ++ named t → result ≡ length (named t) }
{
    let mut at = letters.len() - 1;
    let mut due = letters[at].count;
    while due > 0 && at > 0 {
        at = at.saturating_sub(sizes[at - 1]);
        due -= 1;
    }
    letters.len() - at
}

/// Returns, for each item of a term, the size of the subterm that ends with it.
pub(crate) fn sizes(alloc: Global, letters: &[Letter]) -> Result<Vec<usize>, AllocError>
    ensures { IfOk result (λ v. AreSizes letters.now v.items) }
{
    let mut sizes = Vec::with_capacity(alloc, letters.len())?;
    for i in 0..letters.len() {
        let size = size_of_last(&letters[..i + 1], &sizes);
        sizes.push(size)?;
    }
    Ok(sizes)
}

/// Matches one item of a left-hand side against the last of these terms. Returns the terms that
/// remain to be matched, or `None` if it does not match.
fn ask<'t, 's>(
    letter: Letter,
    terms: Terms<'t, 's>,
    values: &mut Values<'t>,
) -> Result<Option<Terms<'t, 's>>, AllocError>
    requires { AreSizes terms.letters.now terms.sizes.now }
    ensures asks { IfOk result (λ found. Asks letter terms.entry.letters.now values.old values.new
        (option_map (λ p. p.letters.now) found)) }
    ensures sizes { IfOk result
        (λ found. IfSome found (λ p. AreSizes p.letters.now p.sizes.now)) }
{
    let Some((last, others)) = terms.letters.split_last() else {
        return Ok(None);
    };
    match letter.meaning {
        Meaning::Symbol(_) => {
            let (front, _last) = terms.split_at(others.len());
            Ok(same_letter(*last, letter).then_some(front))
        }
        Meaning::Variable(variable) => {
            let (front, part) = terms.split_at(terms.before_last());
            Ok(values.bind(variable, part.letters)?.then_some(front))
        }
    }
}

/// Matches the items of a left-hand side against a term, from the last to the first.
fn all_match<'t>(
    left: &[Letter],
    term: Terms<'t, '_>,
    values: &mut Values<'t>,
) -> Result<bool, AllocError>
    requires { AreSizes term.letters.now term.sizes.now }
    ensures { IfOk result (λ b. Matches left.now term.entry.letters.now b) }
{
    values.clear();
    let mut terms = term;
    let mut letters = left;
    while let Some((letter, front)) = letters.split_last() {
        match ask(*letter, terms, values)? {
            Some(others) => terms = others,
            None => return Ok(false),
        }
        letters = front;
    }
    Ok(true)
}

/// Returns whether a left-hand side matches a term, whose variables are read as constants. No
/// left-hand side matches a term with fewer items.
pub(crate) fn matches<'t>(
    left: &[Letter],
    term: Terms<'t, '_>,
    values: &mut Values<'t>,
) -> Result<bool, AllocError>
    requires { AreSizes term.letters.now term.sizes.now }
    ensures { IfOk result (λ b. Matches left.now term.entry.letters.now b) }
{
    if left.len() <= term.letters.len() {
        all_match(left, term, values)
    } else {
        Ok(false)
    }
}
