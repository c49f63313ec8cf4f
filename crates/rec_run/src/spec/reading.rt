//! Reads the texts of a run: a specification, and input terms.

ghost use Rattle.std.specs.Prelude.{◌≡◌, ◌≤◌, IfOk, IfErr, IfSome, IsSome};
ghost use Rattle.std.specs.Prelude.{OnOk, length, option_map};
ghost use Rattle.rx_term.specs.Steps.{Grows};
ghost use Rattle.rx_term.specs.Store.{Store, tree_at};
ghost use Rattle.rx_text.specs.Input.{IsSameInput, remaining_in};
ghost use Rattle.rec_syntax.specs.Grammar.{SpecText};
ghost use Rattle.rec_sorts.specs.SpecRules.{Verdict};
ghost use Rattle.rec_run.specs.Reading.{IsGood, IsSpecRead, IsSpecReading, KeepsText};
ghost use Rattle.rx_run.specs.Run.{IsReadOut, RanOut, StopsReading, StopsUnwritten};
ghost use Rattle.rx_run.specs.Streams.{ReportsRead};
ghost use Rattle.rec_run.specs.Run.{ReportsReadsBy, ReportsReadsOf, both_texts};
ghost use Rattle.rec_run.specs.GivenTerms.{
  EndsRefused,
  HoldsList,
  IsJobAfter,
  IsJobRead,
  IsJudged,
  IsReady,
  IsRefusal,
  IsTermsRead,
  OnGoodSpec,
  OnRefusedSpec,
  job_of,
  list_refused,
};

use crate::spec::input_terms::InputTerms;
use rec_sorts::{Checked, SortFault, TermsFault, check, check_terms};
use rec_syntax::{Syntax, SyntaxFault, read_owned};
use rx_run::{InputForm, Reading, Reason, RunFault, Source, parse_input, read_all_from};
use rx_term::{Term, TermBank};
use rx_text::Input;
use std::alloc::{AllocError, Global};
use std::io::Read;

/// An accepted specification, and the list of input terms in a store, if given.
#[derive(Drop)]
pub struct Job {
    /// The specification.
    pub checked: Checked,
    /// The list of input terms.
    pub list: Option<Term>,
}

/// Parses and checks the text of a specification. An accepted specification keeps the text.
pub(crate) fn judge(alloc: Global, text: Vec<u8>) -> Result<Reading<Checked>, AllocError>
    ensures verdict { IfOk result (IsSpecRead text.items) }
    ensures source { IfOk result (KeepsText text.items) }
{
    match read_owned(alloc, text) {
        Ok(syntax) => judge_rules(alloc, syntax),
        Err(SyntaxFault::Long) => Ok(Reading::refused(Source::Spec, Reason::Long)),
        Err(SyntaxFault::Grammar { at }) => {
            Ok(Reading::refused(Source::Spec, Reason::Grammar { at }))
        }
        Err(SyntaxFault::Memory) => Err(AllocError),
    }
}

/// Checks a parsed specification against the rules S1 to S11.
fn judge_rules(alloc: Global, syntax: Syntax) -> Result<Reading<Checked>, AllocError>
    requires short { length syntax.source ≤ 16777216 }
    requires spelled { SpecText syntax.source syntax.spec }
    ensures verdict { IfOk result (IsSpecRead syntax.source) }
    ensures source { IfOk result (KeepsText syntax.source) }
{
    match check(alloc, syntax) {
        Ok(checked) => Ok(Reading::Good(checked)),
        Err(SortFault::Rule { number, at }) => {
            Ok(Reading::refused(Source::Spec, Reason::Rule { number, at }))
        }
        Err(SortFault::Memory) => Err(AllocError),
    }
}

/// Reads a specification from an input and, if it is accepted and input terms are given, their
/// text in this form. Returns both, with the terms in `bank`, or the error of the rejected text. A
/// reader that has failed is not used again.
pub fn read_given_from<B: TermBank, R: Read, G: InputTerms>(
    alloc: Global,
    form: InputForm,
    spec: &mut Input<'_, R>,
    terms: &mut G,
    bank: &mut B,
) -> Result<Reading<Job>, RunFault>
    ensures read { IfOk result (λ reading. IfSome
        (both_texts (remaining_in R.remaining spec.old) (G.text terms.old))
        (λ texts. IsJobRead form (B.store bank.new) texts reading)) }
    ensures ready { IfOk result (IsReady (B.store bank.new)) }
    ensures out { OnOk result (IsReadOut (remaining_in R.remaining spec.old)
        (remaining_in R.remaining spec.new)) }
    ensures terms_out { OnOk result (OnGoodSpec (remaining_in R.remaining spec.old)
        (G.is_read_out terms.old terms.new)) }
    ensures unread { OnRefusedSpec (remaining_in R.remaining spec.old) (terms.new ≡ terms.old) }
    ensures unused { OnRefusedSpec (remaining_in R.remaining spec.old) (bank.new ≡ bank.old) }
    ensures refused { OnRefusedSpec (remaining_in R.remaining spec.old) (EndsRefused result) }
    ensures roots { (B.store bank.new).roots ≡ (B.store bank.old).roots }
    ensures cap { (B.store bank.new).cap ≡ (B.store bank.old).cap }
    ensures fault { IfErr result (StopsUnwritten (B.store bank.old) (B.store bank.new)) }
    ensures same { IsSameInput spec.old spec.new }
    ensures same_terms { G.is_same terms.old terms.new }
    ensures reads { ReportsReadsOf spec.old spec.new
        (G.refused terms.old) (G.refused terms.new) result }
{
    let first = read_spec_text_from(alloc, spec)?;
    read_after(alloc, form, first, terms, bank)
}

/// Reads the text of a specification, and parses and checks it.
pub fn read_spec_text<R: Read>(alloc: Global, spec: &mut R) -> Result<Reading<Checked>, RunFault>
    ensures verdict { IfOk result
        (λ reading. IfSome (R.remaining spec.old) (λ bytes. IsSpecRead bytes reading)) }
    ensures source { IfOk result
        (λ reading. IfSome (R.remaining spec.old) (λ bytes. KeepsText bytes reading)) }
    ensures out { OnOk result (IsReadOut (R.remaining spec.old) (R.remaining spec.new)) }
    ensures fault { IfErr result StopsReading }
{
    let mut spec = Input::new(spec);
    read_spec_text_from(alloc, &mut spec)
}

/// Reads the text of a specification from an input, and parses and checks it. An input that has
/// failed is not used again.
pub fn read_spec_text_from<R: Read>(
    alloc: Global,
    spec: &mut Input<'_, R>,
) -> Result<Reading<Checked>, RunFault>
    ensures verdict { IfOk result
        (λ reading. IfSome (remaining_in R.remaining spec.old)
        (λ bytes. IsSpecRead bytes reading)) }
    ensures source { IfOk result (λ reading. IfSome (remaining_in R.remaining spec.old)
        (λ bytes. KeepsText bytes reading)) }
    ensures out { OnOk result (IsReadOut (remaining_in R.remaining spec.old)
        (remaining_in R.remaining spec.new)) }
    ensures fault { IfErr result StopsReading }
    ensures reports { ReportsRead spec.old spec.new result }
{
    let text = read_all_from(alloc, spec)?;
    let reading = judge(alloc, text)?;
    Ok(reading)
}

/// Reads the text of the input terms, if there are some and the specification is accepted.
fn read_after<B: TermBank, G: InputTerms>(
    alloc: Global,
    form: InputForm,
    first: Reading<Checked>,
    terms: &mut G,
    bank: &mut B,
) -> Result<Reading<Job>, RunFault>
    ensures read { IfOk result (λ reading. IfSome (G.text terms.old)
        (λ given. IsJobAfter form (B.store bank.new) given first reading)) }
    ensures ready { IfOk result (IsReady (B.store bank.new)) }
    ensures out { OnOk result (IsGood first → G.is_read_out terms.old terms.new) }
    ensures unread { (v : Verdict) → IsSpecReading first v → IsRefusal v
        → terms.new ≡ terms.old }
    ensures unused { (v : Verdict) → IsSpecReading first v → IsRefusal v → bank.new ≡ bank.old }
    ensures refused { (v : Verdict) → IsSpecReading first v → IsRefusal v
        → EndsRefused result }
    ensures roots { (B.store bank.new).roots ≡ (B.store bank.old).roots }
    ensures cap { (B.store bank.new).cap ≡ (B.store bank.old).cap }
    ensures fault { IfErr result (StopsUnwritten (B.store bank.old) (B.store bank.new)) }
    ensures same { G.is_same terms.old terms.new }
    ensures reports { ReportsReadsBy (G.refused terms.old) (G.refused terms.new) result }
{
    match first {
        Reading::Refused(refusal) => Ok(Reading::Refused(refusal)),
        Reading::Good(checked) => read_terms(alloc, form, checked, terms, bank),
    }
}

/// Reads and checks the text of the input terms, if there are some, for a specification.
fn read_terms<B: TermBank, G: InputTerms>(
    alloc: Global,
    form: InputForm,
    checked: Checked,
    terms: &mut G,
    bank: &mut B,
) -> Result<Reading<Job>, RunFault>
    ensures read { IfOk result (λ reading. IfSome (G.text terms.old)
        (λ given. IsJobAfter form (B.store bank.new) given (Reading.Good checked) reading)) }
    ensures ready { IfOk result (IsReady (B.store bank.new)) }
    ensures out { OnOk result (G.is_read_out terms.old terms.new) }
    ensures roots { (B.store bank.new).roots ≡ (B.store bank.old).roots }
    ensures cap { (B.store bank.new).cap ≡ (B.store bank.old).cap }
    ensures fault { IfErr result (StopsUnwritten (B.store bank.old) (B.store bank.new)) }
    ensures same { G.is_same terms.old terms.new }
    ensures reports { ReportsReadsBy (G.refused terms.old) (G.refused terms.new) result }
{
    let text = terms.read_text(alloc)?;
    judge_given(alloc, form, checked, text, bank)
}

/// Returns the input of an evaluation, from a specification and the text of input terms, if any.
fn judge_given<B: TermBank>(
    alloc: Global,
    form: InputForm,
    checked: Checked,
    text: Option<Vec<u8>>,
    bank: &mut B,
) -> Result<Reading<Job>, RunFault>
    ensures read { IfOk result (IsJobAfter form (B.store bank.new)
        (option_map (λ text. text.items) text) (Reading.Good checked)) }
    ensures ready { IfOk result (IsReady (B.store bank.new)) }
    ensures grows { Grows (B.store bank.old) (B.store bank.new) }
    ensures fault { IfErr result (RanOut (B.store bank.old) (B.store bank.new)) }
{
    match text {
        None => Ok(Reading::Good(Job {
            checked,
            list: None,
        })),
        Some(text) => {
            let reading = judge_terms(alloc, form, &checked, &text, bank)?;
            Ok(job_from(checked, reading))
        }
    }
}

/// Combines an accepted specification with the result of reading input terms.
fn job_from(checked: Checked, reading: Reading<Term>) -> Reading<Job>
    ensures { result ≡ job_of checked reading }
{
    match reading {
        Reading::Refused(refusal) => Reading::Refused(refusal),
        Reading::Good(list) => Reading::Good(Job {
            checked,
            list: Some(list),
        }),
    }
}

/// Parses and checks a text of input terms in this form for an accepted specification.
fn judge_terms<B: TermBank>(
    alloc: Global,
    form: InputForm,
    checked: &Checked,
    text: &[u8],
    bank: &mut B,
) -> Result<Reading<Term>, RunFault>
    ensures verdict { IfOk result
        (IsTermsRead form checked.now.spec (B.store bank.new) text.now) }
    ensures holds { IfOk result (HoldsList checked.now.spec (B.store bank.new)) }
    ensures grows { Grows (B.store bank.old) (B.store bank.new) }
    ensures fault { IfErr result (RanOut (B.store bank.old) (B.store bank.new)) }
{
    match parse_input(alloc, Source::Terms, form, text, bank)? {
        Reading::Refused(refusal) => Ok(Reading::Refused(refusal)),
        Reading::Good(list) => judge_list(alloc, checked, bank, list),
    }
}

/// Checks the parsed list of input terms against the rules T1 to T6.
fn judge_list<B: TermBank>(
    alloc: Global,
    checked: &Checked,
    bank: &B,
    list: Term,
) -> Result<Reading<Term>, RunFault>
    requires { IsSome (tree_at (B.store bank.now) list) }
    ensures verdict { IfOk result (λ reading. IfSome (tree_at (B.store bank.now) list)
        (λ t. IsJudged checked.now.spec (B.store bank.now) t reading)) }
    ensures holds { IfOk result (HoldsList checked.now.spec (B.store bank.now)) }
    ensures fault { IfErr result (λ fault. fault ≡ RunFault.Memory 0) }
{
    match check_terms(alloc, checked, bank, list) {
        Ok(()) => Ok(Reading::Good(list)),
        Err(fault) => refuse_list(fault),
    }
}

/// Returns the error line or the error for a list of input terms that is not accepted.
fn refuse_list(fault: TermsFault) -> Result<Reading<Term>, RunFault>
    ensures { result ≡ list_refused fault }
{
    match fault {
        TermsFault::Rule { number } => {
            Ok(Reading::refused(Source::Terms, Reason::TermsRule { number }))
        }
        TermsFault::Memory => Err(RunFault::Memory { lines: 0 }),
    }
}
