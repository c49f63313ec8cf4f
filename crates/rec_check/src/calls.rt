//! The search for missing cases: calls that no left-hand side matches.
//!
//! The search starts with a call that has a hole for each argument. If a left-hand side has a
//! symbol instead of a hole, each constructor of the hole's sort is tried there. If a variable is
//! repeated in a left-hand side, the holes are filled with equal and with different terms. A call
//! that is found is compared with all left-hand sides once more. If no call is found, used operators
//! without rules are tried like constructors.

ghost use Rattle.std.specs.Prelude.{◌≡◌, IfOk, IfSome};
ghost use Rattle.rec_check.specs.Findings.{AreUncovered, as_diagnostics};
ghost use Rattle.rec_check.specs.Inner.Grounds.{IsAsker, IsExampleOf};
ghost use Rattle.rec_check.specs.Inner.Trials.{AreSizes};

use crate::fillings::{MOST, MOST_LETTERS, Picker, Reach, Shapes, count_holes};
use crate::finding::Diagnostic;
use crate::matching::{Terms, sizes};
use crate::uncovered::Asker;
use rec_sorts::{Checked, Letter, Meaning};
use std::alloc::{AllocError, Global};

/// The largest number of calls that are tried for one operator.
const MOST_CALLS: usize = 1_000;
/// The largest number of comparisons of left-hand sides with calls, for all operators together.
const MOST_TRIES: usize = 2_000_000;
/// The number of comparisons that filling the holes of a call counts for.
const TRIES_TO_FILL: usize = 100;
/// The largest number of holes that are filled with first and second terms in all ways.
const MOST_HOLES: usize = 5;

/// The relation of a left-hand side to a call with holes.
#[derive(Clone, Copy, Drop)]
enum Fit {
    /// It matches no filling of the call.
    Apart,
    /// It matches the fillings in which some subterms are equal.
    Repeats,
    /// It matches every filling.
    Covers,
    /// It has a symbol instead of the hole with this index.
    Opens(usize),
}

/// Returns whether an item is among these.
fn is_among(letters: &[Letter], letter: Letter) -> bool {
    for other in letters {
        if *other == letter {
            return true;
        }
    }
    false
}

/// Returns whether a left-hand side has a variable more than once.
fn has_repeated(left: &[Letter]) -> bool {
    for (i, letter) in left.iter().enumerate() {
        if let Meaning::Variable(_) = letter.meaning {
            if is_among(&left[..i], *letter) {
                return true;
            }
        }
    }
    false
}

/// Compares a left-hand side with a call, as if no variable occurred twice.
fn compare_linear(left: &[Letter], call: Terms<'_, '_>) -> Fit
    requires { AreSizes call.letters.now call.sizes.now }
{
    let mut terms = call;
    let mut letters = left;
    while let Some((letter, front)) = letters.split_last() {
        let Some((last, others)) = terms.letters.split_last() else {
            return Fit::Apart;
        };
        match (letter.meaning, last.meaning) {
            (Meaning::Variable(_), _) => terms = terms.split_at(terms.before_last()).0,
            (Meaning::Symbol(_), Meaning::Variable(_)) => return Fit::Opens(others.len()),
            (Meaning::Symbol(_), Meaning::Symbol(_)) => {
                if *last != *letter {
                    return Fit::Apart;
                }
                terms = terms.split_at(others.len()).0;
            }
        }
        letters = front;
    }
    Fit::Covers
}

/// Compares a left-hand side with a call.
fn compare(left: &[Letter], call: Terms<'_, '_>) -> Fit
    requires { AreSizes call.letters.now call.sizes.now }
{
    if left.len() > MOST_LETTERS {
        return Fit::Apart;
    }
    match compare_linear(left, call) {
        Fit::Covers if has_repeated(left) => Fit::Repeats,
        fit => fit,
    }
}

/// The number of ways to fill holes with first and second terms.
fn ways_to_fill(holes: usize) -> usize {
    let mut ways: usize = 1;
    for _hole in 0..holes.min(MOST_HOLES) {
        ways = ways.saturating_mul(2);
    }
    ways
}

/// The operator of which a call is searched, and the shapes of its arguments.
#[derive(Clone, Copy, Drop)]
struct Goal<'s> {
    operator: u32,
    shapes: &'s Shapes,
}

/// The search for missing cases of a specification.
#[derive(Drop)]
struct Search<'a> {
    asker: Asker<'a>,
    /// Shapes of constructors.
    constructors: Shapes,
    /// Shapes of constructors and of used operators without rules, if there are such operators.
    operators: Option<Shapes>,
}

impl Goal<'_> {
    /// Returns a call with a symbol, applied to holes, instead of a hole.
    fn with_symbol(
        self,
        alloc: Global,
        call: &[Letter],
        at: usize,
        symbol: u32,
    ) -> Result<Vec<Letter>, AllocError> {
        let mut letters = Vec::new(alloc);
        for (i, letter) in call.iter().enumerate() {
            match self.shapes.opened.get(symbol as usize) {
                Some(open) if i == at => letters.extend_from_slice(open)?,
                _ => letters.push(*letter)?,
            }
        }
        Ok(letters)
    }

    /// Appends the calls with each symbol instead of a hole.
    fn push_opened(
        self,
        alloc: Global,
        call: &[Letter],
        at: usize,
        calls: &mut Vec<Vec<Letter>>,
    ) -> Result<(), AllocError> {
        for symbol in self.shapes.symbols_for(call, at) {
            if calls.len() >= MOST_CALLS {
                return Ok(());
            }
            let next = self.with_symbol(alloc, call, at, *symbol)?;
            if next.len() <= MOST_LETTERS {
                calls.push(next)?;
            }
        }
        Ok(())
    }
}

impl<'a> Search<'a> {
    /// Returns the relation to a call of the first left-hand side that covers or opens it. If there
    /// is none, returns whether a left-hand side repeats a variable.
    fn first_fit(&self, operator: u32, call: Terms<'_, '_>, tries: &mut usize) -> Fit
        requires { AreSizes call.letters.now call.sizes.now }
    {
        let rules = self.asker.checked.rules();
        let mut rule = self.asker.rewriter.first_rule(operator);
        let mut fit = Fit::Apart;
        while *tries > 0 && rule < rules.len() {
            match compare(&rules[rule].left, call) {
                Fit::Apart => {}
                Fit::Repeats => fit = Fit::Repeats,
                other => return other,
            }
            rule = self.asker.rewriter.next_rule(rule);
            *tries -= 1;
        }
        fit
    }

    /// Returns the relation to a call in postfix form, as [`Search::first_fit`] does.
    fn fit(
        &self,
        alloc: Global,
        operator: u32,
        call: &[Letter],
        tries: &mut usize,
    ) -> Result<Fit, AllocError> {
        let sizes = sizes(alloc, call)?;
        let terms = Terms {
            letters: call,
            sizes: &sizes,
        };
        Ok(self.first_fit(operator, terms, tries))
    }

    /// Fills the holes of a call, and returns it if no left-hand side matches it.
    fn ask_filled(
        &self,
        alloc: Global,
        goal: Goal<'_>,
        call: &[Letter],
        picker: Picker,
    ) -> Result<Option<Diagnostic>, AllocError>
        requires { IsAsker self.now.asker }
        ensures { IfOk result
            (λ o. IfSome o (IsExampleOf self.now.asker.checked.now.spec goal.entry.operator)) }
    {
        let letters = goal.shapes.fill_holes(alloc, call, picker)?;
        match letters.split_last() {
            Some((_operator, arguments)) => self.asker.example(alloc, goal.operator, arguments),
            None => Ok(None),
        }
    }

    /// Fills the holes of a call with equal and with different terms, and returns the first result
    /// that no left-hand side matches.
    fn ask_repeated(
        &self,
        alloc: Global,
        goal: Goal<'_>,
        call: &[Letter],
        tries: &mut usize,
    ) -> Result<Option<Diagnostic>, AllocError>
        requires { IsAsker self.now.asker }
        ensures { IfOk result
            (λ o. IfSome o (IsExampleOf self.now.asker.checked.now.spec goal.entry.operator)) }
    {
        let ways = ways_to_fill(count_holes(call));
        let weight = ways / 2;
        for bits in 0..ways {
            *tries = tries.saturating_sub(TRIES_TO_FILL);
            let found = self.ask_filled(alloc, goal, call, Picker::Bits { bits, weight })?;
            if found.is_some() {
                return Ok(found);
            }
        }
        self.ask_filled(alloc, goal, call, Picker::Different(0))
    }

    /// Tries a call: checks it, or adds more specific calls.
    fn try_call(
        &self,
        alloc: Global,
        goal: Goal<'_>,
        call: &[Letter],
        calls: &mut Vec<Vec<Letter>>,
        tries: &mut usize,
    ) -> Result<Option<Diagnostic>, AllocError>
        requires { IsAsker self.now.asker }
        ensures { IfOk result
            (λ o. IfSome o (IsExampleOf self.now.asker.checked.now.spec goal.entry.operator)) }
    {
        match self.fit(alloc, goal.operator, call, tries)? {
            Fit::Covers => Ok(None),
            Fit::Opens(at) => {
                goal.push_opened(alloc, call, at, calls)?;
                Ok(None)
            }
            Fit::Repeats => self.ask_repeated(alloc, goal, call, tries),
            Fit::Apart => {
                *tries = tries.saturating_sub(TRIES_TO_FILL);
                self.ask_filled(alloc, goal, call, Picker::First)
            }
        }
    }

    /// Returns the first call to try: an operator applied to holes, if it has rules.
    fn first_calls(&self, alloc: Global, goal: Goal<'_>) -> Result<Vec<Vec<Letter>>, AllocError>
        requires { IsAsker self.now.asker }
    {
        let mut calls = Vec::new(alloc);
        if let Some(open) = goal.shapes.opened.get(goal.operator as usize) {
            if self.asker.is_ruled(goal.operator) {
                calls.push(open.clone()?)?;
            }
        }
        Ok(calls)
    }

    /// Returns a call of an operator that no left-hand side matches, if one is found.
    fn search(
        &self,
        alloc: Global,
        goal: Goal<'_>,
        tries: &mut usize,
    ) -> Result<Option<Diagnostic>, AllocError>
        requires { IsAsker self.now.asker }
        ensures { IfOk result
            (λ o. IfSome o (IsExampleOf self.now.asker.checked.now.spec goal.entry.operator)) }
    {
        let mut calls = self.first_calls(alloc, goal)?;
        let mut found = None;
        for next in 0..MOST_CALLS {
            if found.is_some() || next >= calls.len() || *tries == 0 {
                break;
            }
            let call = calls[next].clone()?;
            found = self.try_call(alloc, goal, &call, &mut calls, tries)?;
        }
        Ok(found)
    }

    /// Returns a call of an operator that no left-hand side matches, if one is found: with
    /// constructors, or else with used operators without rules.
    fn example(
        &self,
        alloc: Global,
        operator: u32,
        tries: &mut usize,
    ) -> Result<Option<Diagnostic>, AllocError>
        requires { IsAsker self.now.asker }
        ensures { IfOk result
            (λ o. IfSome o (IsExampleOf self.now.asker.checked.now.spec operator)) }
    {
        let goal = Goal {
            operator,
            shapes: &self.constructors,
        };
        let found = self.search(alloc, goal, tries)?;
        match &self.operators {
            Some(shapes) if found.is_none() => {
                self.search(alloc, Goal { operator, shapes }, tries)
            }
            _ => Ok(found),
        }
    }

    /// Returns the calls that are found, operator by operator.
    fn examples(&self, alloc: Global) -> Result<Vec<Diagnostic>, AllocError>
        requires { IsAsker self.now.asker }
        ensures { IfOk result (λ v.
            AreUncovered self.now.asker.checked.now.spec (as_diagnostics v.items)) }
    {
        let checked = self.asker.checked;
        let mut examples = Vec::new(alloc);
        let mut tries = MOST_TRIES;
        for operator in checked.constructors()..checked.symbols() {
            if let Some(example) = self.example(alloc, operator, &mut tries)? {
                examples.push(example)?;
            }
        }
        Ok(examples)
    }
}

/// Prepares the search for a specification.
fn prepare(alloc: Global, checked: &Checked) -> Result<Search<'_>, AllocError>
    ensures asker { IfOk result (λ s. IsAsker s.asker) }
    ensures same { IfOk result (λ s. s.asker.checked.now ≡ checked.now) }
{
    let asker = Asker::of(alloc, checked)?;
    let constructors = Shapes::of(alloc, &asker, Reach::Constructors)?;
    let operators = if asker.has_filling_operator() {
        Some(Shapes::of(alloc, &asker, Reach::Operators)?)
    } else {
        None
    };
    Ok(Search {
        asker,
        constructors,
        operators,
    })
}

/// Searches, and returns the calls that are found.
fn find_examples(alloc: Global, checked: &Checked) -> Result<Vec<Diagnostic>, AllocError>
    ensures { IfOk result (λ v. AreUncovered checked.now.spec (as_diagnostics v.items)) }
{
    let search = prepare(alloc, checked)?;
    search.examples(alloc)
}

/// Returns whether a specification is small enough for the search.
fn is_small(checked: &Checked) -> bool {
    checked.rules().len() <= MOST
        && checked.symbols() as usize <= MOST
        && checked.syntax().sorts().len() <= MOST
}

/// Returns calls of operators with ground terms as arguments that no left-hand side matches,
/// at most one for each operator. If there is none for an operator, nothing is promised.
pub fn uncovered_calls(alloc: Global, checked: &Checked) -> Result<Vec<Diagnostic>, AllocError>
    ensures { IfOk result (λ v. AreUncovered checked.now.spec (as_diagnostics v.items)) }
{
    if is_small(checked) {
        find_examples(alloc, checked)
    } else {
        Ok(Vec::new(alloc))
    }
}
