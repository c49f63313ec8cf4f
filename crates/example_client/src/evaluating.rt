//! From the text of a specification to the printed normal forms of its terms and of input terms.

ghost use Rattle.std.specs.Prelude.{◌≡◌, ◌<◌, ℕ, [], Some, IsSome, IfOk, IfErr, OnOk, length};
ghost use Rattle.std.specs.Prelude.{option_map};
ghost use Rattle.rx_term.specs.Tree.{Tree};
ghost use Rattle.rx_term.specs.Store.{tree_at};
ghost use Rattle.rx_term.specs.Steps.{Keeps};
ghost use Rattle.rx_term.specs.declared.Term.{Term};
ghost use Rattle.rec_sorts.specs.Linked.{HasMoreSymbols};
ghost use Rattle.rec_sorts.specs.SpecRules.{SpecVerdict, Good};
ghost use Rattle.rec_engine.specs.Engine.{IsGiven, SameEngine, eval_tree};
ghost use Rattle.example_client.specs.Evaluated.{IsRefused, IsHeld, value_within, value_text};

use crate::WorkFault;
use crate::texts::{only, text_of};
use rec_engine::{Engine, EngineFault, Options, Outcome};
use rec_sorts::{Checked, check, check_terms};
use rec_syntax::read_spec;
use rx_term::{Term, TermBank};
use std::alloc::Global;

/// The options of the engines in this module.
const OPTIONS: Options = Options {
    memo: 65_536,
    reclaim_every: 262_144,
};

/// Reads and checks a specification. Returns an error if the text is not one, or violates a rule.
pub fn specification_of(alloc: Global, text: &[u8]) -> Result<Checked, WorkFault>
    ensures good { IfOk result (λ c. SpecVerdict text.now (Good c.spec)) }
    ensures refused { IfErr result (IsRefused text.now) }
{
    let syntax = match read_spec(alloc, text) {
        Ok(syntax) => syntax,
        Err(fault) => return Err(WorkFault::Syntax(fault)),
    };
    match check(alloc, syntax) {
        Ok(checked) => Ok(checked),
        Err(fault) => Err(WorkFault::Rules(fault)),
    }
}

/// Checks that a term can be evaluated, and protects it. Returns an error, without a protection, if
/// it violates one of the rules T1 to T6, if it is protected as often as possible already, or if
/// the store or an allocation fails. No tree is lost in any case.
pub fn admit<B: TermBank>(
    alloc: Global,
    checked: &Checked,
    bank: &mut B,
    t: Term,
) -> Result<(), WorkFault>
    requires { IsSome (tree_at (B.store bank.old) t) }
    ensures given { OnOk result (IsGiven checked.now.spec (B.store bank.new) t) }
    ensures protected { OnOk result (0 < (B.store bank.new).roots t.0) }
    ensures trees { (s : Term) → (u : Tree) → tree_at (B.store bank.old) s ≡ Some u →
        tree_at (B.store bank.new) s ≡ Some u }
{
    let list = only(bank, t)?;
    check_terms(alloc, checked, bank, list)?;
    bank.protect(t)?;
    Ok(())
}

/// Returns an engine for a specification over a store. Terms that have to stay are protected
/// before.
pub fn engine_over<B: TermBank + Drop>(
    alloc: Global,
    checked: Checked,
    bank: B,
) -> Result<Engine<B>, EngineFault>
    ensures spec { IfOk result (λ e. e.spec ≡ checked.spec) }
    ensures store { IfOk result (λ e. HasMoreSymbols (B.store bank) (B.store e.bank)) }
    ensures given { IfOk result (λ e. (t : Term) → IsGiven checked.spec (B.store bank) t →
        IsGiven e.spec (B.store e.bank) t) }
{
    Engine::new(alloc, checked, bank, OPTIONS)
}

/// Evaluates a term. Returns its normal form, which lives until the next evaluation, or `None` if
/// it takes more than `n` steps.
pub fn value_of<B: TermBank>(
    engine: &mut Engine<B>,
    t: Term,
    n: u64,
) -> Result<Option<Term>, EngineFault>
    requires { IsGiven engine.old.spec (B.store engine.old.bank) t }
    ensures value { IfOk result (λ r. (u : Tree) → tree_at (B.store engine.old.bank) t ≡ Some u →
        IsHeld (B.store engine.new.bank) r (value_within engine.old.spec n u)) }
    ensures given { tree_at (B.store engine.new.bank) t ≡ tree_at (B.store engine.old.bank) t }
    ensures same { SameEngine engine.old engine.new }
    ensures keeps { Keeps (B.store engine.old.bank) (B.store engine.new.bank) [] }
{
    match engine.normalise(t, n)? {
        Outcome::Value { term, steps: _ } => Ok(Some(term)),
        Outcome::Limit => Ok(None),
    }
}

/// Evaluates a term and prints its normal form. Returns `None` if it takes more than `n` steps.
pub fn value_text<B: TermBank>(
    alloc: Global,
    engine: &mut Engine<B>,
    t: Term,
    n: u64,
) -> Result<Option<Vec<u8>>, WorkFault>
    requires { IsGiven engine.old.spec (B.store engine.old.bank) t }
    ensures text { IfOk result (λ text. (u : Tree) → tree_at (B.store engine.old.bank) t ≡ Some u →
        option_map (λ v. v.items) text ≡ value_text engine.old.spec n u) }
    ensures given { tree_at (B.store engine.new.bank) t ≡ tree_at (B.store engine.old.bank) t }
    ensures same { SameEngine engine.old engine.new }
    ensures keeps { Keeps (B.store engine.old.bank) (B.store engine.new.bank) [] }
{
    let Some(value) = value_of(engine, t, n)? else {
        return Ok(None);
    };
    Ok(Some(text_of(alloc, engine.bank(), value)?))
}

/// Evaluates the EVAL term with index `i`, from 0, and prints its normal form. Returns `None` if it
/// takes more than `n` steps.
pub fn own_value_text<B: TermBank>(
    alloc: Global,
    engine: &mut Engine<B>,
    i: u32,
    n: u64,
) -> Result<Option<Vec<u8>>, WorkFault>
    requires { i < length engine.old.spec.terms }
    ensures text { IfOk result (λ text. (u : Tree) → eval_tree engine.old.spec i ≡ Some u →
        option_map (λ v. v.items) text ≡ value_text engine.old.spec n u) }
    ensures same { SameEngine engine.old engine.new }
    ensures keeps { Keeps (B.store engine.old.bank) (B.store engine.new.bank) [] }
{
    let t = engine.eval_term(i)?;
    value_text(alloc, engine, t, n)
}
