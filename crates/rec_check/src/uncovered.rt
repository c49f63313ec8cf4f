//! Ground calls: they are built from ground terms, compared with all left-hand sides, and printed.

ghost use Rattle.std.specs.Prelude.{
  ◌≡◌,
  ◌++◌,
  ◌∷◌,
  ◌&&◌,
  ◌||◌,
  ◌<◌,
  [],
  All,
  IfOk,
  IfSome,
  List,
  OnOk,
  Some,
  length,
  map,
  not,
  slice_get,
  true,
};
ghost use Rattle.rec_syntax.specs.Parts.{IsDeclaration, Within, declaration_of, words_of};
ghost use Rattle.rec_syntax.specs.Syntax as syntax;
ghost use Rattle.rec_syntax.specs.Syntax.{Spec};
ghost use Rattle.rec_sorts.specs.Lookup.{symbols};
ghost use Rattle.rec_check.specs.Findings.{ShowsCall};
ghost use Rattle.rec_check.specs.Inner.Grounds.{
  AreJoined,
  IsAsker,
  IsCallAt,
  IsCallOf,
  IsExampleOf,
  IsGroundOf,
  sorts_had,
};
ghost use Rattle.rec_check.specs.Uncovered.{begins_rule, may_fill, sorts_due};

use crate::broken::left_heads;
use crate::finding::{Diagnostic, Kind};
use crate::matching::{Terms, Values, sizes};
use crate::names::Names;
use crate::printed::push_name;
use crate::rewriting::Rewriter;
use crate::scope::symbol_numbered;
use crate::unused::used_names;
use crate::words::constructor_words;
use rec_sorts::{Checked, Letter, Meaning};
use rec_syntax::{Declaration, Span, Syntax};
use std::alloc::{AllocError, Global};

/// The largest length of a printed call, in bytes.
const LONGEST_TEXT: usize = 200;

/// A ground term, or a call whose arguments are ground terms, with its sort, its postfix items and
/// its text.
#[derive(Drop)]
pub(crate) struct Ground<'a> {
    /// The offsets of its symbol's declaration.
    at: usize,
    end: usize,
    sort: &'a [u8],
    letters: Vec<Letter>,
    text: Vec<u8>,
}

/// Returns the byte before an argument: a parenthesis before the first, and a comma before each
/// other.
fn mark_before(argument: usize) -> u8
    ensures first { argument ≡ 0 → result ≡ 40 }
    ensures other { 0 < argument → result ≡ 44 }
{
    if argument == 0 { b'(' } else { b',' }
}

/// Appends the closing parenthesis if there are arguments.
fn push_end(arguments: usize, text: &mut Vec<u8>) -> Result<(), AllocError>
    ensures some { OnOk result
        (0 < arguments → text.new.items ≡ text.old.items ++ 41 ∷ []) }
    ensures none { OnOk result (arguments ≡ 0 → text.new.items ≡ text.old.items) }
{
    if arguments > 0 {
        text.push(b')')?;
    }
    Ok(())
}

/// Concatenates terms: returns their items, and appends their texts with a parenthesis before the
/// first one and a comma before each other.
fn join(alloc: Global, terms: &[Ground<'_>], text: &mut Vec<u8>) -> Result<Vec<Letter>, AllocError>
    ensures { (y : Spec) → All (IsGroundOf y) terms.now → IfOk result (λ v.
        AreJoined y (sorts_had terms.now) v.items text.old.items text.new.items) }
{
    let mut letters = Vec::new(alloc);
    for (i, term) in terms.iter().enumerate() {
        text.push(mark_before(i))?;
        text.extend_from_slice(&term.text)?;
        letters.extend_from_slice(&term.letters)?;
    }
    Ok(letters)
}

/// Returns whether terms have these sorts.
fn have_sorts(syntax: &Syntax, sorts: &[Span], terms: &[Ground<'_>]) -> bool
    requires { All (Within syntax.now.source) sorts.now }
    ensures { result ≡ true
        → sorts_had terms.now ≡ map (λ w. w.bytes) (words_of syntax.now.source sorts.now) }
{
    if terms.len() != sorts.len() {
        return false;
    }
    for (i, term) in terms.iter().enumerate() {
        if term.sort != syntax.word(sorts[i]) {
            return false;
        }
    }
    true
}

/// Applies a symbol to terms of its declared sorts.
fn apply<'a>(
    alloc: Global,
    checked: &'a Checked,
    symbol: u32,
    declaration: &Declaration,
    terms: &[Ground<'_>],
) -> Result<Ground<'a>, AllocError>
    requires symbol { slice_get (symbols checked.now.spec) symbol
        ≡ Some (declaration_of checked.now.source declaration.now) }
    requires within { IsDeclaration checked.now.source declaration.now }
    ensures { sorts_had terms.now ≡ sorts_due (declaration_of checked.now.source declaration.now)
        → All (IsGroundOf checked.now.spec) terms.now → IfOk result
        (IsCallOf checked.now.spec (declaration_of checked.now.source declaration.now)) }
{
    let mut text = Vec::new(alloc);
    push_name(checked.symbol_name(symbol), &mut text)?;
    let mut letters = join(alloc, terms, &mut text)?;
    push_end(terms.len(), &mut text)?;
    letters.push(Letter {
        meaning: Meaning::Symbol(symbol),
        count: checked.arity(symbol),
    })?;
    Ok(Ground {
        at: declaration.name.from,
        end: declaration.name.to,
        sort: checked.syntax().word(declaration.sort),
        letters,
        text,
    })
}

/// Applies a symbol to terms. Returns `None` if they do not have its declared sorts.
fn call<'a>(
    alloc: Global,
    checked: &'a Checked,
    symbol: u32,
    terms: &[Ground<'_>],
) -> Result<Option<Ground<'a>>, AllocError>
    ensures { All (IsGroundOf checked.now.spec) terms.now
        → IfOk result (λ o. IfSome o (IsCallAt checked.now.spec symbol)) }
{
    let syntax = checked.syntax();
    let Some(declaration) = symbol_numbered(syntax, symbol as usize) else {
        return Ok(None);
    };
    if !have_sorts(syntax, declaration.arguments.as_slice(), terms) {
        return Ok(None);
    }
    Ok(Some(apply(alloc, checked, symbol, declaration, terms)?))
}

/// Returns whether ground terms are made of a symbol: it begins no left-hand side, and it is a
/// constructor or is used.
fn fills(is_begun: bool, is_made: bool, is_used: bool) -> bool
    ensures { result ≡ (not is_begun && (is_made || is_used)) }
{
    !is_begun && (is_made || is_used)
}

/// Compares calls with the left-hand sides of a specification.
#[derive(Drop)]
pub(crate) struct Asker<'a> {
    pub checked: &'a Checked,
    pub rewriter: Rewriter<'a>,
    /// The symbols of left-hand sides.
    begun: Names<'a>,
    /// The constructors.
    made: Names<'a>,
    /// The symbols in rules and EVAL terms.
    used: Names<'a>,
}

impl<'a> Asker<'a> {
    /// Returns the asker of a specification.
    pub(crate) fn of(alloc: Global, checked: &'a Checked) -> Result<Self, AllocError>
        ensures asker { IfOk result IsAsker }
        ensures same { IfOk result (λ a. a.checked.now ≡ checked.now) }
    {
        let rewriter = Rewriter::of(alloc, checked)?;
        let heads = left_heads(alloc, checked.syntax())?;
        let begun = Names::of(alloc, &heads)?;
        let constructors = constructor_words(alloc, checked.syntax())?;
        let made = Names::of(alloc, &constructors)?;
        let used = used_names(alloc, checked.syntax())?;
        Ok(Asker {
            checked,
            rewriter,
            begun,
            made,
            used,
        })
    }

    /// Returns whether a symbol has rules.
    pub(crate) fn is_ruled(&self, symbol: u32) -> bool
        requires { IsAsker self.now }
        ensures begins { (d : syntax.Declaration)
            → slice_get (symbols self.now.checked.now.spec) symbol ≡ Some d
            → result ≡ begins_rule self.now.checked.now.spec d.name.bytes }
        ensures within { result ≡ true → symbol < length (symbols self.now.checked.now.spec) }
    {
        if symbol >= self.checked.symbols() {
            return false;
        }
        self.begun.has(self.checked.symbol_name(symbol))
    }

    /// Returns whether ground terms are made of a symbol.
    pub(crate) fn may_fill(&self, symbol: u32) -> bool
        requires { IsAsker self.now }
        ensures { (d : syntax.Declaration)
            → slice_get (symbols self.now.checked.now.spec) symbol ≡ Some d
            → result ≡ may_fill self.now.checked.now.spec d.name.bytes }
    {
        if symbol >= self.checked.symbols() {
            return false;
        }
        let name = self.checked.symbol_name(symbol);
        let is_begun = self.begun.has(name);
        let is_made = self.made.has(name);
        let is_used = self.used.has(name);
        fills(is_begun, is_made, is_used)
    }

    /// Returns whether ground terms are made of some operator.
    pub(crate) fn has_filling_operator(&self) -> bool
        requires { IsAsker self.now }
    {
        for operator in self.checked.constructors()..self.checked.symbols() {
            if self.may_fill(operator) {
                return true;
            }
        }
        false
    }

    /// Applies a symbol to terms. Returns `None` if it may not fill, or has other sorts.
    fn construct(
        &self,
        alloc: Global,
        letter: Letter,
        terms: &[Ground<'_>],
    ) -> Result<Option<Ground<'a>>, AllocError>
        requires { IsAsker self.now }
        ensures { All (IsGroundOf self.now.checked.now.spec) terms.now
            → IfOk result (λ o. IfSome o (IsGroundOf self.now.checked.now.spec)) }
    {
        let Meaning::Symbol(symbol) = letter.meaning else {
            return Ok(None);
        };
        if !self.may_fill(symbol) {
            return Ok(None);
        }
        call(alloc, self.checked, symbol, terms)
    }

    /// Builds the ground terms of these items. An item that may not fill is skipped.
    fn terms(&self, alloc: Global, letters: &[Letter]) -> Result<Vec<Ground<'a>>, AllocError>
        requires { IsAsker self.now }
        ensures { IfOk result (λ v. All (IsGroundOf self.now.checked.now.spec) v.items) }
    {
        let mut stack = Vec::new(alloc);
        for letter in letters {
            let base = stack.len().saturating_sub(letter.count as usize);
            if let Some(term) = self.construct(alloc, *letter, &stack[base..])? {
                stack.truncate(base);
                stack.push(term)?;
            }
        }
        Ok(stack)
    }

    /// Returns whether the symbol of a call has rules, and no left-hand side matches the call.
    fn is_uncovered(
        &self,
        alloc: Global,
        symbol: u32,
        call: &Ground<'_>,
    ) -> Result<bool, AllocError>
        requires { IsAsker self.now }
        ensures { (d : syntax.Declaration)
            → slice_get (symbols self.now.checked.now.spec) symbol ≡ Some d
            → IsCallOf self.now.checked.now.spec d call.now → IfOk result (λ b. b ≡ true
            → ShowsCall self.now.checked.now.spec d
            (record {
              at = call.now.at;
              end = call.now.end;
              shown = call.now.text.items;
              kind = Kind.NotCovered;
            })) }
    {
        if self.is_ruled(symbol) && call.text.len() <= LONGEST_TEXT {
            Ok(!self.rewriter.covers(alloc, symbol, &call.letters)?)
        } else {
            Ok(false)
        }
    }

    /// Returns the call of a symbol with the terms of these items as arguments, if no left-hand
    /// side matches it.
    pub(crate) fn example(
        &self,
        alloc: Global,
        symbol: u32,
        letters: &[Letter],
    ) -> Result<Option<Diagnostic>, AllocError>
        requires { IsAsker self.now }
        ensures { IfOk result
            (λ o. IfSome o (IsExampleOf self.now.checked.now.spec symbol)) }
    {
        let terms = self.terms(alloc, letters)?;
        let Some(call) = call(alloc, self.checked, symbol, &terms)? else {
            return Ok(None);
        };
        if self.is_uncovered(alloc, symbol, &call)? {
            Ok(Some(Diagnostic {
                at: call.at,
                end: call.end,
                kind: Kind::NotCovered,
                shown: call.text,
            }))
        } else {
            Ok(None)
        }
    }
}
