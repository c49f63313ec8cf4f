//! The results of runs with a pattern, before they are written.

ghost use Rattle.std.specs.Prelude.{◌≡◌, List, ℕ, Some, IfErr, IfOk, IfSome, IsSome, OnOk};
ghost use Rattle.rx_term.specs.Tree.{Tree};
ghost use Rattle.rx_term.specs.Store.{tree_at};
ghost use Rattle.rx_term.specs.Walks.{AllHeld, HaveTrees};
ghost use Rattle.rx_text.specs.Input.{remaining_in};
ghost use Rattle.rx_text.specs.Verdict.{Verdict, IsVerdict};
ghost use Rattle.rx_pattern.specs.Matching.{matching};
ghost use Rattle.rx_pattern.specs.Filling.{filling};
ghost use Rattle.rx_run.specs.PatternRuns.{elements};
ghost use Rattle.rx_run.specs.Due.{done};
ghost use Rattle.rx_run.specs.Run.{IsReadOut, RanOut, StopsUnwritten};
ghost use Rattle.rx_run.specs.Streams.{ReportsRead};
ghost use Rattle.rx_run.specs.TermRuns.{IsTermHeld, due_at, due_of, term_line};
ghost use Rattle.rx_run.specs.PatternRuns.{
  IsMakeDue,
  IsMatchDue,
  IsNoPattern,
  SpellsPattern,
  due_of_args,
  filled_due,
  made_due,
  match_lines,
};
ghost use Rattle.rx_run.specs.Inner.PatternAnswers.{IsAnswerHeld, IsPatternRead, answer_due, is_yes};

use crate::ending::{RunFault, Source};
use crate::pattern::reading::elements_of;
use crate::refusal::{Reading, Reason};
use crate::term::reading::{InputForm, parse, read_term};
use rx_pattern::{MakeFault, Pattern, PatternFault};
use rx_term::{Term, TermBank};
use rx_text::Input;
use std::alloc::Global;
use std::io::Read;

/// The result of a match.
#[derive(Drop)]
pub(crate) enum Answer {
    /// The pattern does not match.
    No,
    /// The pattern matches. The bindings are in the order of its placeholders.
    Yes(Vec<Term>),
}

/// Returns whether the pattern matches. False if an input was rejected.
pub(crate) fn has_matched(answer: &Reading<Answer>) -> bool
    ensures { result ≡ is_yes answer.now }
{
    match answer {
        Reading::Good(Answer::Yes(_)) => true,
        Reading::Good(Answer::No) | Reading::Refused(_) => false,
    }
}

/// If a pattern was read, reads the input and matches the pattern with it.
pub(crate) fn match_reading<B: TermBank, R: Read>(
    alloc: Global,
    reading: Reading<Pattern>,
    input: &mut Input<'_, R>,
    bank: &mut B,
) -> Result<Reading<Answer>, RunFault>
    ensures due { IfOk result (λ answer. (text : List ℕ) → IsPatternRead text reading
        → IfSome (remaining_in R.remaining input.old)
        (λ bytes. IsMatchDue text bytes (answer_due (B.store bank.new) answer))) }
    ensures held { IfOk result (λ answer. IsAnswerHeld (B.store bank.new) answer) }
    ensures fault { IfErr result (StopsUnwritten (B.store bank.old) (B.store bank.new)) }
    ensures cap { (B.store bank.new).cap ≡ (B.store bank.old).cap }
    ensures input_read { OnOk result ((text : List ℕ) (p : Tree) → IsPatternRead text reading
        → SpellsPattern text p → IsReadOut (remaining_in R.remaining input.old)
        (remaining_in R.remaining input.new)) }
    ensures unread { (text : List ℕ) → IsPatternRead text reading → IsNoPattern text
        → input.new ≡ input.old }
    ensures reports { ReportsRead input.old input.new result }
{
    match reading {
        Reading::Refused(refusal) => Ok(Reading::Refused(refusal)),
        Reading::Good(pattern) => match_input(alloc, &pattern, input, bank),
    }
}

/// Reads the input and matches a pattern with it.
fn match_input<B: TermBank, R: Read>(
    alloc: Global,
    pattern: &Pattern,
    input: &mut Input<'_, R>,
    bank: &mut B,
) -> Result<Reading<Answer>, RunFault>
    ensures due { IfOk result (λ answer. IfSome (remaining_in R.remaining input.old) (λ bytes.
        (v : Verdict) ×
        (IsVerdict bytes v × (answer_due (B.store bank.new) answer ≡ due_of
        (λ t. match_lines (matching pattern.now t)) v)))) }
    ensures input_read { OnOk result (IsReadOut (remaining_in R.remaining input.old)
        (remaining_in R.remaining input.new)) }
    ensures held { IfOk result (λ answer. IsAnswerHeld (B.store bank.new) answer) }
    ensures fault { IfErr result (StopsUnwritten (B.store bank.old) (B.store bank.new)) }
    ensures cap { (B.store bank.new).cap ≡ (B.store bank.old).cap }
    ensures reports { ReportsRead input.old input.new result }
{
    match read_term(alloc, InputForm::Term, input, bank)? {
        Reading::Refused(refusal) => Ok(Reading::Refused(refusal)),
        Reading::Good(t) => match_term(alloc, pattern, t, bank),
    }
}

/// Matches a pattern with a term of the store.
fn match_term<B: TermBank>(
    alloc: Global,
    pattern: &Pattern,
    t: Term,
    bank: &mut B,
) -> Result<Reading<Answer>, RunFault>
    requires { IsSome (tree_at (B.store bank.old) t) }
    ensures due { IfOk result (λ answer. (u : Tree) → tree_at (B.store bank.old) t ≡ Some u →
        answer_due (B.store bank.new) answer ≡ done (match_lines (matching pattern.now u))) }
    ensures held { IfOk result (λ answer. IsAnswerHeld (B.store bank.new) answer) }
    ensures fault { IfErr result (RanOut (B.store bank.old) (B.store bank.new)) }
    ensures cap { (B.store bank.new).cap ≡ (B.store bank.old).cap }
{
    let mut bindings = Vec::new(alloc);
    match pattern.matches(bank, t, &mut bindings) {
        Ok(true) => Ok(Reading::Good(Answer::Yes(bindings))),
        Ok(false) => Ok(Reading::Good(Answer::No)),
        Err(PatternFault::Full) => Err(RunFault::Room { lines: 0 }),
        Err(_) => Err(RunFault::Memory { lines: 0 }),
    }
}

/// If a pattern was read, reads the arguments and fills the pattern with them.
pub(crate) fn make_of_reading<B: TermBank>(
    alloc: Global,
    reading: Reading<Pattern>,
    args: &[u8],
    bank: &mut B,
) -> Result<Reading<Term>, RunFault>
    ensures due { IfOk result (λ made. (text : List ℕ) → IsPatternRead text reading
        → IsMakeDue text args.now (due_at term_line (B.store bank.new) made)) }
    ensures held { IfOk result (λ made. IsTermHeld (B.store bank.new) made) }
    ensures fault { IfErr result (RanOut (B.store bank.old) (B.store bank.new)) }
    ensures cap { (B.store bank.new).cap ≡ (B.store bank.old).cap }
{
    match reading {
        Reading::Refused(refusal) => Ok(Reading::Refused(refusal)),
        Reading::Good(pattern) => make_of_text(alloc, &pattern, args, bank),
    }
}

/// Reads the arguments and fills a pattern with them.
fn make_of_text<B: TermBank>(
    alloc: Global,
    pattern: &Pattern,
    args: &[u8],
    bank: &mut B,
) -> Result<Reading<Term>, RunFault>
    ensures due { IfOk result (λ made. (v : Verdict) × (IsVerdict args.now v
        × (due_at term_line (B.store bank.new) made ≡ due_of_args pattern.now v))) }
    ensures held { IfOk result (λ made. IsTermHeld (B.store bank.new) made) }
    ensures fault { IfErr result (RanOut (B.store bank.old) (B.store bank.new)) }
    ensures cap { (B.store bank.new).cap ≡ (B.store bank.old).cap }
{
    match parse(alloc, Source::Args, args, bank)? {
        Reading::Refused(refusal) => Ok(Reading::Refused(refusal)),
        Reading::Good(t) => make_of_term(alloc, pattern, t, bank),
    }
}

/// Fills a pattern with the elements of a list term of the store.
fn make_of_term<B: TermBank>(
    alloc: Global,
    pattern: &Pattern,
    t: Term,
    bank: &mut B,
) -> Result<Reading<Term>, RunFault>
    requires { IsSome (tree_at (B.store bank.old) t) }
    ensures due { IfOk result (λ made. (u : Tree) → tree_at (B.store bank.old) t ≡ Some u →
        due_at term_line (B.store bank.new) made ≡ filled_due pattern.now (elements u)) }
    ensures held { IfOk result (λ made. IsTermHeld (B.store bank.new) made) }
    ensures fault { IfErr result (RanOut (B.store bank.old) (B.store bank.new)) }
    ensures cap { (B.store bank.new).cap ≡ (B.store bank.old).cap }
{
    match elements_of(alloc, bank, t) {
        Ok(Some(args)) => make_of_elements(pattern, &args, bank),
        Ok(None) => Ok(Reading::refused(Source::Args, Reason::Unlisted)),
        Err(_) => Err(RunFault::Memory { lines: 0 }),
    }
}

/// Fills a pattern with terms of the store.
fn make_of_elements<B: TermBank>(
    pattern: &Pattern,
    args: &[Term],
    bank: &mut B,
) -> Result<Reading<Term>, RunFault>
    requires { AllHeld (B.store bank.old) args.now }
    ensures due { IfOk result
        (λ made. (ts : List Tree) → HaveTrees (B.store bank.old) args.now ts →
        due_at term_line (B.store bank.new) made ≡ made_due (filling pattern.now ts)) }
    ensures held { IfOk result (λ made. IsTermHeld (B.store bank.new) made) }
    ensures fault { IfErr result (RanOut (B.store bank.old) (B.store bank.new)) }
    ensures cap { (B.store bank.new).cap ≡ (B.store bank.old).cap }
{
    match pattern.make(bank, args) {
        Ok(t) => Ok(Reading::Good(t)),
        Err(MakeFault::Count) => Ok(Reading::refused(Source::Args, Reason::Count)),
        Err(MakeFault::Kind { at: _ }) => Ok(Reading::refused(Source::Args, Reason::Kind)),
        Err(MakeFault::Memory) => Err(RunFault::Memory { lines: 0 }),
        Err(MakeFault::Full) => Err(RunFault::Room { lines: 0 }),
    }
}
