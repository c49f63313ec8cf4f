//! Classes of rules. The class of a rule without conditions is the symbol of its left-hand side that
//! the left-hand sides have least often. A rule that rewrites a term is in the class of one of the
//! term's symbols, so that a term is compared with few rules.

ghost use Rattle.std.specs.Prelude.{◌≡◌, ◌<◌, ◌≤◌, ◌⊎◌, All, IfOk, IfSome, get_or, length, take};
ghost use Rattle.rec_syntax.specs.Syntax as syntax;
ghost use Rattle.rec_sorts.specs.Numbering.{AreLetters, IsMeaning};
ghost use Rattle.rec_sorts.specs.declared.letters.Meaning.TheVariants.{Symbol};
ghost use Rattle.rec_check.specs.Inner.Rewriters.{
  AreClasses,
  HasSymbol,
  IsClass,
  IsFirstFor,
  IsRewriter,
  IsSymbolOf,
};
ghost use Rattle.rec_check.specs.Inner.Trials.{AreSizes};
ghost use Rattle.rec_check.specs.Rewriting.{IsFirstWord, rewritten_by};

use crate::matching::{Terms, Values};
use crate::rewriting::{Rewriter, head_symbol, letters};
use rec_sorts::{Checked, Letter, Meaning};
use std::alloc::{AllocError, Global};

/// Adds one to the count of a postfix item, if it is a symbol.
fn count_letter(counts: &mut [usize], letter: Letter) {
    if let Meaning::Symbol(symbol) = letter.meaning {
        if let Some(count) = counts.get_mut(symbol as usize) {
            *count = count.saturating_add(1);
        }
    }
}

/// Counts the symbols of a left-hand side.
fn count_letters(counts: &mut [usize], left: &[Letter]) {
    for letter in left {
        count_letter(counts, *letter);
    }
}

/// Returns how often each symbol is in the left-hand sides.
fn counts(alloc: Global, checked: &Checked) -> Result<Vec<usize>, AllocError> {
    let mut counts = vec![in alloc; 0; checked.symbols() as usize]?;
    for rule in checked.rules() {
        count_letters(&mut counts, &rule.left);
    }
    Ok(counts)
}

/// Returns whether the first of two symbols is less frequent.
fn is_rarer(counts: &[usize], symbol: u32, other: u32) -> bool {
    match (counts.get(symbol as usize), counts.get(other as usize)) {
        (Some(own), Some(others)) => *own < *others,
        _ => false,
    }
}

/// Returns the rarer one of a postfix item, if it is a symbol, and another symbol.
fn rarer(counts: &[usize], letter: Letter, rarest: u32) -> u32
    ensures { (result ≡ rarest) ⊎ (letter.meaning ≡ Symbol result) }
{
    match letter.meaning {
        Meaning::Symbol(symbol) if is_rarer(counts, symbol, rarest) => symbol,
        _ => rarest,
    }
}

/// Returns the symbol of a left-hand side that is least frequent; `head` is its first one.
fn rarest_letter(counts: &[usize], left: &[Letter], head: u32) -> u32
    ensures { (result ≡ head) ⊎ HasSymbol left.now result }
{
    let mut rarest = head;
    for letter in left {
        rarest = rarer(counts, *letter, rarest);
    }
    rarest
}

/// Returns the symbol of a rule's left-hand side that is least frequent.
fn rarest_symbol(checked: &Checked, counts: &[usize], rule: usize) -> u32
    requires { rule < length checked.now.spec.rules }
    ensures { (r : _) → IsSymbolOf checked.now.spec (get_or checked.now.spec.rules rule r) result }
{
    let head = head_symbol(checked, rule);
    rarest_letter(counts, &letters(checked, rule).left, head)
}

/// Returns the class of a rule. Rules with conditions have a class of their own.
fn class_of(checked: &Checked, counts: &[usize], rule: usize) -> u32
    requires { rule < length checked.now.spec.rules }
    ensures { (r : _) → IsClass checked.now.spec (get_or checked.now.spec.rules rule r) result }
{
    if letters(checked, rule).conditions.len() == 0 {
        rarest_symbol(checked, counts, rule)
    } else {
        checked.symbols()
    }
}

/// Returns the classes of all rules.
pub(crate) fn rule_classes(alloc: Global, checked: &Checked) -> Result<Vec<u32>, AllocError>
    ensures { IfOk result (λ v. AreClasses checked.now.spec v.items) }
{
    let counts = counts(alloc, checked)?;
    let mut classes = Vec::new(alloc);
    for rule in 0..checked.rules().len() {
        classes.push(class_of(checked, &counts, rule))?;
    }
    Ok(classes)
}

impl<'a> Rewriter<'a> {
    /// Returns the first rule below `before` of a symbol's class that rewrites a term, or `before`
    /// if there is none.
    fn rewriting_class<'t>(
        &self,
        letter: Letter,
        before: usize,
        term: Terms<'t, '_>,
        values: &mut Values<'t>,
    ) -> Result<usize, AllocError>
        requires rules { IsRewriter self.now }
        requires meant { IsMeaning self.now.checked.now.spec letter.meaning }
        requires before { before ≤ length self.now.checked.now.spec.rules }
        requires sizes { AreSizes term.letters.now term.sizes.now }
        ensures within { IfOk result (λ n. n ≤ before) }
        ensures first { IfOk result (λ n. (t : syntax.Term)
            → AreLetters self.now.checked.now.spec term.entry.letters.now t
            → IsFirstFor self.now.checked.now.spec self.now.classes.items letter.meaning t
            before n) }
    {
        let Meaning::Symbol(class) = letter.meaning else {
            return Ok(before);
        };
        let mut rule = self.by_class.firsts[class as usize];
        while rule < before {
            if self.rewrites(rule, term, values)? {
                return Ok(rule);
            }
            rule = self.by_class.nexts[rule];
        }
        Ok(before)
    }

    /// Returns the first rule below `before` that rewrites a term, among those of the classes of
    /// the term's symbols.
    pub(crate) fn rewriting_small<'t>(
        &self,
        before: usize,
        term: Terms<'t, '_>,
        values: &mut Values<'t>,
    ) -> Result<Option<usize>, AllocError>
        requires rules { IsRewriter self.now }
        requires before { before ≤ length self.now.checked.now.spec.rules }
        requires sizes { AreSizes term.letters.now term.sizes.now }
        requires meant { All (λ l. IsMeaning self.now.checked.now.spec l.meaning)
            term.letters.now }
        ensures first { IfOk result (λ found. (t : syntax.Term)
            → AreLetters self.now.checked.now.spec term.entry.letters.now t
            → IsFirstWord self.now.checked.now.spec found
            (rewritten_by self.now.checked.now.spec
            (take before self.now.checked.now.spec.rules) t)) }
        ensures within { IfOk result (λ found.
            IfSome found (λ rule. rule < length self.now.checked.now.spec.rules)) }
    {
        let mut first = before;
        for letter in term.letters {
            first = self.rewriting_class(*letter, first, term, values)?;
        }
        if first < before {
            Ok(Some(first))
        } else {
            Ok(None)
        }
    }
}
