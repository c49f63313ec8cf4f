//! The rules without conditions that rewrite a term whose variables are read as constants.

mod classes;
mod pushing;

ghost use Rattle.std.specs.Prelude.{◌≡◌, ◌++◌, ◌<◌, ◌≤◌, All, IfOk, IfSome, List, Option, false};
ghost use Rattle.std.specs.Prelude.{get_or, length, map, take};
ghost use Rattle.rec_syntax.specs.Syntax as syntax;
ghost use Rattle.rec_syntax.specs.Syntax.{arguments, head};
ghost use Rattle.rec_sorts.specs.Lookup.{symbols};
ghost use Rattle.rec_sorts.specs.Numbering.{
  AreLetters,
  IsLetterRule,
  IsMeaning,
  Named,
  name_of,
  named,
  named_by,
};
ghost use Rattle.rec_sorts.specs.declared.letters.Meaning.TheVariants.{Symbol};
ghost use Rattle.rec_match.specs.Inner.Built.{AreHeads, IsHead};
ghost use Rattle.rec_match.specs.Inner.Chains.{AreChainsFrom};
ghost use Rattle.rec_check.specs.Named.{as_words};
ghost use Rattle.rec_check.specs.Inner.Rewriters.{IsRewriter};
ghost use Rattle.rec_check.specs.Rewriting.{
  IsFirstWord,
  postorder_all,
  rewrites,
  rewritten_by,
};
ghost use Rattle.rec_check.specs.Spots.{spot_of};
ghost use Rattle.rec_check.specs.Uncovered.{IsUnmatched};
ghost use Rattle.rec_check.specs.Inner.Trials.{AreSizes};

use crate::broken::head_of;
use crate::located::Word;
use crate::matching::{Terms, Values, matches, sizes};
use crate::rewriting::classes::rule_classes;
use crate::spots::{Cursor, Spot};
use crate::words::{node_words, push_term};
use rec_sorts::{Checked, Letter, LetterRule, Meaning};
use rec_syntax::Syntax;
use std::alloc::{AllocError, Global};

/// The largest size of a term, in postfix items, for which rules are found by their classes.
const MOST_ITEMS: usize = 256;

/// The first rule of each symbol or class, and for each rule the next one of the same symbol or
/// class. The number of rules means that there is none.
#[derive(Drop)]
struct Chains {
    firsts: Vec<usize>,
    nexts: Vec<usize>,
}

/// Returns the chains of rules with these symbols; `count` is the number of symbols.
fn chain(alloc: Global, heads: &[u32], count: usize) -> Result<Chains, AllocError>
    requires { All (λ k. k < count) heads.now }
    ensures { IfOk result (λ c. AreChainsFrom heads.now count 0 c.firsts.items c.nexts.items) }
{
    let end = heads.len();
    let mut firsts = vec![in alloc; end; count]?;
    let mut nexts = vec![in alloc; end; end]?;
    let mut rule = end;
    while rule > 0 {
        rule -= 1;
        let symbol = heads[rule] as usize;
        nexts[rule] = firsts[symbol];
        firsts[symbol] = rule;
    }
    Ok(Chains { firsts, nexts })
}

/// Returns a rule in postfix form.
fn letters<'a>(checked: &'a Checked, rule: usize) -> &'a LetterRule
    requires { rule < length checked.now.spec.rules }
    ensures { (r : _)
        → IsLetterRule checked.now.spec result.now (get_or checked.now.spec.rules rule r) }
{
    match checked.rules().get(rule) {
        Some(letters) => letters,
        None => unreachable!(),
    }
}

/// Returns the number of the symbol of a rule's left-hand side.
fn head_symbol(checked: &Checked, rule: usize) -> u32
    requires { rule < length checked.now.spec.rules }
    ensures { (r : _) → IsHead checked.now.spec (get_or checked.now.spec.rules rule r) result }
{
    let _kept = checked.syntax();
    match letters(checked, rule).left.split_last() {
        Some((letter, _others)) => match letter.meaning {
            Meaning::Symbol(symbol) => symbol,
            Meaning::Variable(_) => unreachable!(),
        },
        None => unreachable!(),
    }
}

/// Returns the numbers of the symbols of all left-hand sides.
fn head_symbols(alloc: Global, checked: &Checked) -> Result<Vec<u32>, AllocError>
    ensures { IfOk result (λ v. AreHeads checked.now.spec v.items) }
{
    let mut heads = Vec::new(alloc);
    for rule in 0..checked.rules().len() {
        heads.push(head_symbol(checked, rule))?;
    }
    Ok(heads)
}

/// Returns the first words of the arguments of a left-hand side, at any depth, in postorder.
fn inner_words<'a>(
    alloc: Global,
    syntax: &'a Syntax,
    rule: usize,
) -> Result<Vec<Word<'a>>, AllocError>
    requires { rule < length syntax.now.spec.rules }
    ensures { (r : _) → IfOk result (λ v. as_words v.items
        ≡ map head (postorder_all (arguments (get_or syntax.now.spec.rules rule r).left))) }
{
    let mut nodes = Vec::new(alloc);
    match syntax.rules().get(rule) {
        Some(rule) => push_term(syntax, &rule.left, &mut nodes)?,
        None => unreachable!(),
    }
    nodes.pop();
    node_words(alloc, &nodes)
}

/// Returns the locations of the left-hand sides.
fn left_spots(alloc: Global, syntax: &Syntax) -> Result<Vec<Spot>, AllocError>
    ensures { IfOk result (λ v. v.items
        ≡ map (λ r. spot_of syntax.now.source (head r.left).at) syntax.now.spec.rules) }
{
    let mut cursor = Cursor::new(syntax.source());
    let mut spots = Vec::new(alloc);
    for rule in syntax.rules() {
        spots.push(cursor.spot(head_of(syntax, &rule.left).at))?;
    }
    Ok(spots)
}

/// The rules of a specification, by the symbols of their left-hand sides.
#[derive(Drop)]
pub(crate) struct Rewriter<'a> {
    checked: &'a Checked,
    chains: Chains,
    /// The class of each rule.
    classes: Vec<u32>,
    /// The rules by their classes.
    by_class: Chains,
    /// The location of each left-hand side.
    spots: Vec<Spot>,
}

impl<'a> Rewriter<'a> {
    /// Returns the rewriter of a specification.
    pub(crate) fn of(alloc: Global, checked: &'a Checked) -> Result<Self, AllocError>
        ensures rules { IfOk result IsRewriter }
        ensures same { IfOk result (λ r. r.checked.now ≡ checked.now) }
    {
        let heads = head_symbols(alloc, checked)?;
        let chains = chain(alloc, &heads, checked.symbols() as usize)?;
        let classes = rule_classes(alloc, checked)?;
        let by_class = chain(alloc, &classes, checked.symbols() as usize + 1)?;
        let spots = left_spots(alloc, checked.syntax())?;
        Ok(Rewriter {
            checked,
            chains,
            classes,
            by_class,
            spots,
        })
    }

    /// Returns whether a rule has no conditions and its left-hand side matches a term.
    fn rewrites<'t>(
        &self,
        rule: usize,
        term: Terms<'t, '_>,
        values: &mut Values<'t>,
    ) -> Result<bool, AllocError>
        requires rule { rule < length self.now.checked.now.spec.rules }
        requires sizes { AreSizes term.letters.now term.sizes.now }
        ensures { IfOk result (λ b. (r : syntax.Rule) (t : syntax.Term)
            → AreLetters self.now.checked.now.spec term.entry.letters.now t
            → b ≡ rewrites self.now.checked.now.spec
            (get_or self.now.checked.now.spec.rules rule r) t) }
    {
        let _kept = self.checked.syntax();
        let rule = letters(self.checked, rule);
        if rule.conditions.len() == 0 {
            matches(&rule.left, term, values)
        } else {
            Ok(false)
        }
    }

    /// Returns the first rule of a symbol, among those below `before`, that rewrites a term.
    fn rewriting_symbol<'t>(
        &self,
        symbol: u32,
        before: usize,
        term: Terms<'t, '_>,
        values: &mut Values<'t>,
    ) -> Result<Option<usize>, AllocError>
        requires rules { IsRewriter self.now }
        requires symbol { symbol < length (symbols self.now.checked.now.spec) }
        requires before { before ≤ length self.now.checked.now.spec.rules }
        requires sizes { AreSizes term.letters.now term.sizes.now }
        ensures first { IfOk result (λ found. (t : syntax.Term)
            → AreLetters self.now.checked.now.spec term.entry.letters.now t
            → (head t).bytes ≡ name_of self.now.checked.now.spec (Symbol symbol)
            → IsFirstWord self.now.checked.now.spec found
            (rewritten_by self.now.checked.now.spec
            (take before self.now.checked.now.spec.rules) t)) }
        ensures within { IfOk result (λ found.
            IfSome found (λ rule. rule < length self.now.checked.now.spec.rules)) }
    {
        let mut rule = self.chains.firsts[symbol as usize];
        while rule < before {
            if self.rewrites(rule, term, values)? {
                return Ok(Some(rule));
            }
            rule = self.chains.nexts[rule];
        }
        Ok(None)
    }

    /// Returns the first rule below `before` that rewrites a call of `symbol`. In a small term only
    /// the rules of its symbols' classes are tried.
    fn rewriting_term<'t>(
        &self,
        symbol: u32,
        before: usize,
        term: Terms<'t, '_>,
        values: &mut Values<'t>,
    ) -> Result<Option<usize>, AllocError>
        requires rules { IsRewriter self.now }
        requires symbol { symbol < length (symbols self.now.checked.now.spec) }
        requires before { before ≤ length self.now.checked.now.spec.rules }
        requires sizes { AreSizes term.letters.now term.sizes.now }
        requires meant { All (λ l. IsMeaning self.now.checked.now.spec l.meaning)
            term.letters.now }
        ensures first { IfOk result (λ found. (t : syntax.Term)
            → AreLetters self.now.checked.now.spec term.entry.letters.now t
            → (head t).bytes ≡ name_of self.now.checked.now.spec (Symbol symbol)
            → IsFirstWord self.now.checked.now.spec found
            (rewritten_by self.now.checked.now.spec
            (take before self.now.checked.now.spec.rules) t)) }
        ensures within { IfOk result (λ found.
            IfSome found (λ rule. rule < length self.now.checked.now.spec.rules)) }
    {
        if term.letters.len() <= MOST_ITEMS {
            self.rewriting_small(before, term, values)
        } else {
            self.rewriting_symbol(symbol, before, term, values)
        }
    }

    /// Returns the first rule below `before` that rewrites the last of these terms, which is a call
    /// of `symbol`.
    fn rewriting_call<'t>(
        &self,
        symbol: u32,
        before: usize,
        terms: Terms<'t, '_>,
        values: &mut Values<'t>,
    ) -> Result<Option<usize>, AllocError>
        requires rules { IsRewriter self.now }
        requires symbol { symbol < length (symbols self.now.checked.now.spec) }
        requires before { before ≤ length self.now.checked.now.spec.rules }
        requires sizes { AreSizes terms.letters.now terms.sizes.now }
        requires meant { All (λ l. IsMeaning self.now.checked.now.spec l.meaning)
            terms.letters.now }
        ensures first { IfOk result (λ found. (ms : List Named) (t : syntax.Term)
            → map (named_by self.now.checked.now.spec) terms.entry.letters.now ≡ ms ++ named t
            → (head t).bytes ≡ name_of self.now.checked.now.spec (Symbol symbol)
            → IsFirstWord self.now.checked.now.spec found
            (rewritten_by self.now.checked.now.spec
            (take before self.now.checked.now.spec.rules) t)) }
        ensures within { IfOk result (λ found.
            IfSome found (λ rule. rule < length self.now.checked.now.spec.rules)) }
    {
        if self.chains.firsts[symbol as usize] >= before {
            return Ok(None);
        }
        let (_others, term) = terms.split_at(terms.before_last());
        self.rewriting_term(symbol, before, term, values)
    }

    /// Returns the first rule below `before` that rewrites the last of these terms.
    fn rewriting<'t>(
        &self,
        before: usize,
        terms: Terms<'t, '_>,
        values: &mut Values<'t>,
    ) -> Result<Option<usize>, AllocError>
        requires rules { IsRewriter self.now }
        requires before { before ≤ length self.now.checked.now.spec.rules }
        requires sizes { AreSizes terms.letters.now terms.sizes.now }
        requires meant { All (λ l. IsMeaning self.now.checked.now.spec l.meaning)
            terms.letters.now }
        ensures first { IfOk result (λ found. (ms : List Named) (t : syntax.Term)
            → map (named_by self.now.checked.now.spec) terms.entry.letters.now ≡ ms ++ named t
            → IsFirstWord self.now.checked.now.spec found
            (rewritten_by self.now.checked.now.spec
            (take before self.now.checked.now.spec.rules) t)) }
        ensures within { IfOk result (λ found.
            IfSome found (λ rule. rule < length self.now.checked.now.spec.rules)) }
    {
        let Some((last, _others)) = terms.letters.split_last() else {
            return Ok(None);
        };
        match last.meaning {
            Meaning::Symbol(symbol) => self.rewriting_call(symbol, before, terms, values),
            Meaning::Variable(_) => Ok(None),
        }
    }

    /// Returns whether a left-hand side of this symbol matches a term, with any conditions.
    fn matching_symbol<'t>(
        &self,
        symbol: u32,
        term: Terms<'t, '_>,
        values: &mut Values<'t>,
    ) -> Result<bool, AllocError>
        requires rules { IsRewriter self.now }
        requires symbol { symbol < length (symbols self.now.checked.now.spec) }
        requires sizes { AreSizes term.letters.now term.sizes.now }
        ensures { IfOk result (λ b. b ≡ false → (t : syntax.Term)
            → AreLetters self.now.checked.now.spec term.entry.letters.now t
            → (head t).bytes ≡ name_of self.now.checked.now.spec (Symbol symbol)
            → IsUnmatched self.now.checked.now.spec t) }
    {
        let _kept = self.checked.syntax();
        let mut rule = self.chains.firsts[symbol as usize];
        while rule < self.spots.len() {
            if matches(&letters(self.checked, rule).left, term, values)? {
                return Ok(true);
            }
            rule = self.chains.nexts[rule];
        }
        Ok(false)
    }

    /// Returns whether a left-hand side matches the call of `symbol` with these postfix items, with
    /// any conditions.
    pub(crate) fn covers(
        &self,
        alloc: Global,
        symbol: u32,
        call: &[Letter],
    ) -> Result<bool, AllocError>
        requires rules { IsRewriter self.now }
        requires symbol { symbol < length (symbols self.now.checked.now.spec) }
        ensures { IfOk result (λ b. b ≡ false → (t : syntax.Term)
            → AreLetters self.now.checked.now.spec call.now t
            → (head t).bytes ≡ name_of self.now.checked.now.spec (Symbol symbol)
            → IsUnmatched self.now.checked.now.spec t) }
    {
        let sizes = sizes(alloc, call)?;
        let term = Terms {
            letters: call,
            sizes: &sizes,
        };
        self.matching_symbol(symbol, term, &mut Values::new(alloc))
    }

    /// Returns the first rule of a symbol, or the number of rules if there is none.
    pub(crate) fn first_rule(&self, symbol: u32) -> usize {
        match self.chains.firsts.get(symbol as usize) {
            Some(rule) => *rule,
            None => self.spots.len(),
        }
    }

    /// Returns the next rule of the same symbol, or the number of rules if there is none.
    pub(crate) fn next_rule(&self, rule: usize) -> usize {
        match self.chains.nexts.get(rule) {
            Some(rule) => *rule,
            None => self.spots.len(),
        }
    }

    /// Returns the first earlier rule that rewrites the left-hand side of `rule`.
    fn rewriting_left(
        &self,
        alloc: Global,
        rule: usize,
        values: &mut Values<'a>,
    ) -> Result<Option<usize>, AllocError>
        requires rules { IsRewriter self.now }
        requires rule { rule < length self.now.checked.now.spec.rules }
        ensures first { (r : syntax.Rule) → IfOk result (λ found.
            IsFirstWord self.now.checked.now.spec found
            (rewritten_by self.now.checked.now.spec
            (take rule self.now.checked.now.spec.rules)
            (get_or self.now.checked.now.spec.rules rule r).left)) }
        ensures within { IfOk result (λ found.
            IfSome found (λ i. i < length self.now.checked.now.spec.rules)) }
    {
        let letters = &letters(self.checked, rule).left;
        let sizes = sizes(alloc, letters)?;
        let terms = Terms {
            letters,
            sizes: &sizes,
        };
        self.rewriting(rule, terms, values)
    }
}
