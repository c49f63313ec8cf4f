//! Writes the lines of the chosen terms of a run: those of the specification, then input terms.

ghost use Rattle.std.specs.Prelude.{◌≡◌, ◌<◌, ◌++◌, [], IfErr, IfOk, OnOk, Some, codes, drop};
ghost use Rattle.std.specs.Prelude.{length};
ghost use Rattle.std.specs.Option.{ForSome};
ghost use Rattle.rx_term.specs.Steps.{Keeps};
ghost use Rattle.rx_term.specs.Store.{tree_at};
ghost use Rattle.rx_term.specs.Tree.{from_list, list_of};
ghost use Rattle.rx_text.specs.Output.{Writes};
ghost use Rattle.rx_text.specs.Output.{WritesFront, contents_of};
ghost use Rattle.rec_syntax.specs.Syntax.{Spec};
ghost use Rattle.rec_engine.specs.Engine.{SameEngine};
ghost use Rattle.rec_engine.specs.Limits.{KeepsLimit};
ghost use Rattle.rx_run.specs.Run.{Stops, StopsAfter};
ghost use Rattle.rec_run.specs.Choice.{AreFew, HasCounts, given_chosen, own_chosen};
ghost use Rattle.rec_run.specs.Depth.{KeepsDepth, RunDeepOnly};
ghost use Rattle.rec_run.specs.EvaluatedLines.{
  ProtectsTerms,
  ReportsOutput,
  RunLacks,
  due_before,
  fault_after,
  of_engine,
};
ghost use Rattle.rec_run.specs.GivenTerms.{HoldsTerms, given_at, given_by, given_lines};
ghost use Rattle.rec_run.specs.Output.{chosen, counts_of, is_limited, lines, own_shown, shown_of};
ghost use Rattle.rec_run.specs.Reading.{own_task, text_at};
ghost use Rattle.rec_run.specs.Reports.{
  IsReadyFor,
  StaysReady,
  TellsMore,
  given_report,
  report_of,
  value_report,
};

use crate::observer::{Observer, Profiler};
use crate::options::{LimitLines, Run, RunSettings, TermChoice};
use crate::reporter::Reporter;
use crate::spec::counts::Counts;
use crate::spec::evaluation::write_evaluation;
use crate::spec::window::window_of;
use rec_engine::{Engine, EngineFault, Watch};
use rx_run::RunFault;
use rx_term::{Kind, Term, TermBank};
use rx_text::Output;
use std::io::Write;

/// Returns the error of a run whose engine failed after `lines` complete lines.
pub fn engine_fault(fault: EngineFault, lines: u64) -> RunFault
    ensures { result ≡ of_engine fault lines }
{
    match fault {
        EngineFault::Memory => RunFault::Memory { lines },
        EngineFault::Room => RunFault::Room { lines },
        EngineFault::Deep => RunFault::Deep { lines },
    }
}

/// Returns the error `fault` with `lines` as the number of complete lines.
fn after(fault: RunFault, lines: u64) -> RunFault
    ensures { result ≡ fault_after fault lines }
{
    match fault {
        RunFault::Memory { .. } => RunFault::Memory { lines },
        RunFault::Room { .. } => RunFault::Room { lines },
        RunFault::Deep { .. } => RunFault::Deep { lines },
        RunFault::Read => RunFault::Read,
        RunFault::Write => RunFault::Write,
    }
}

/// Writes a line for each chosen term of the specification, and then one for each chosen term of
/// the list, if given. Returns the numbers of lines.
pub(crate) fn write_lines<B: TermBank, W: Write, V: Watch, P: Profiler, S: Reporter>(
    run: Run,
    engine: &mut Engine<B>,
    list: Option<Term>,
    out: &mut Output<'_, W>,
    observer: &mut Observer<V, P, S>,
) -> Result<Counts, RunFault>
    requires protected { ForSome list (ProtectsTerms engine.old.spec (B.store engine.old.bank)) }
    requires ready { IsReadyFor S.is_ready engine.old.spec observer.old.reporter }
    ensures counts { IfOk result (λ counts. counts ≡ counts_of run.settings.terms engine.old.spec
        (given_by (B.store engine.old.bank) list) run.settings.form run.settings.options.steps) }
    ensures same { SameEngine engine.old engine.new }
    ensures keeps { Keeps (B.store engine.old.bank) (B.store engine.new.bank) [] }
    ensures ok { OnOk result (Writes W.contents out.old out.new
        (lines engine.old.spec (given_by (B.store engine.old.bank) list)
        (shown_of run.settings)
        run.settings.options.steps)) }
    ensures err { IfErr result (λ fault. Stops fault
        (lines engine.old.spec (given_by (B.store engine.old.bank) list)
        (shown_of run.settings) run.settings.options.steps)
        (contents_of W.contents out.old) (contents_of W.contents out.new)) }
    ensures room { IfErr result
        (RunLacks (B.store engine.new.bank) engine.new.work engine.new.memo) }
    ensures deep { RunDeepOnly engine.new.waiting run.settings.depth result }
    ensures bound { OnOk result (KeepsDepth (length (chosen run.settings.terms engine.old.spec
        (given_by (B.store engine.old.bank) list))) run.settings.depth engine.old engine.new) }
    ensures reports { ReportsOutput out.old out.new result }
    ensures ready { StaysReady S.is_ready engine.old.spec observer.old.reporter observer.new.reporter }
    ensures told { OnOk result (TellsMore S.is_ready S.told engine.old.spec
        observer.old.reporter observer.new.reporter (λ source. report_of run.settings.terms S.says
        source engine.old.spec (given_by (B.store engine.old.bank) list)
        run.settings.options.steps)) }
{
    let own = match write_own_lines(run, engine, out, observer) {
        Ok(own) => own,
        Err(fault) => return Err(fault),
    };
    match list {
        None => Ok(own),
        Some(list) => match write_given_lines(run, engine, list, out, observer) {
            Ok(given) => Ok(Counts {
                lines: own.lines + given.lines,
                limit_lines: own.limit_lines + given.limit_lines,
            }),
            Err(fault) => Err(fault),
        },
    }
}

/// Writes a line for each chosen term of the specification. Returns the numbers of lines.
fn write_own_lines<B: TermBank, W: Write, V: Watch, P: Profiler, S: Reporter>(
    run: Run,
    engine: &mut Engine<B>,
    out: &mut Output<'_, W>,
    observer: &mut Observer<V, P, S>,
) -> Result<Counts, RunFault>
    requires ready { IsReadyFor S.is_ready engine.old.spec observer.old.reporter }
    ensures counts { IfOk result (λ counts. counts ≡ counts_of run.settings.terms engine.old.spec []
        run.settings.form run.settings.options.steps) }
    ensures few { IfOk result AreFew }
    ensures same { SameEngine engine.old engine.new }
    ensures keeps { Keeps (B.store engine.old.bank) (B.store engine.new.bank) [] }
    ensures ok { OnOk result (Writes W.contents out.old out.new
        (lines engine.old.spec [] (shown_of run.settings) run.settings.options.steps)) }
    ensures err { IfErr result (λ fault. Stops fault
        (lines engine.old.spec [] (shown_of run.settings) run.settings.options.steps)
        (contents_of W.contents out.old) (contents_of W.contents out.new)) }
    ensures room { IfErr result
        (RunLacks (B.store engine.new.bank) engine.new.work engine.new.memo) }
    ensures deep { RunDeepOnly engine.new.waiting run.settings.depth result }
    ensures bound { OnOk result (KeepsDepth (length (chosen run.settings.terms engine.old.spec []))
        run.settings.depth engine.old engine.new) }
    ensures reports { ReportsOutput out.old out.new result }
    ensures ready { StaysReady S.is_ready engine.old.spec observer.old.reporter observer.new.reporter }
    ensures told { OnOk result (TellsMore S.is_ready S.told engine.old.spec
        observer.old.reporter observer.new.reporter (λ source. report_of run.settings.terms S.says
        source engine.old.spec [] run.settings.options.steps)) }
{
    let window = window_of(run.settings.terms, engine.eval_terms(), 0);
    let mut limit_lines = 0;
    for i in window.from..window.upto {
        match write_own_line(run, engine, i, out, observer) {
            Err(fault) => return Err(after(fault, u64::from(i - window.from))),
            Ok(limited) => limit_lines += u64::from(limited),
        }
    }
    Ok(Counts {
        lines: u64::from(window.upto - window.from),
        limit_lines,
    })
}

/// Writes the line of term `i` of the specification. Returns whether it is a limit line.
fn write_own_line<B: TermBank, W: Write, V: Watch, P: Profiler, S: Reporter>(
    run: Run,
    engine: &mut Engine<B>,
    i: u32,
    out: &mut Output<'_, W>,
    observer: &mut Observer<V, P, S>,
) -> Result<bool, RunFault>
    requires there { i < length engine.old.spec.terms }
    requires ready { IsReadyFor S.is_ready engine.old.spec observer.old.reporter }
    ensures limit { IfOk result (λ limited. limited
        ≡ is_limited engine.old.spec run.settings.form run.settings.options.steps
        (own_task engine.old.spec i)) }
    ensures same { SameEngine engine.old engine.new }
    ensures keeps { Keeps (B.store engine.old.bank) (B.store engine.new.bank) [] }
    ensures ok { OnOk result (Writes W.contents out.old out.new
        (text_at engine.old.spec (own_shown (shown_of run.settings))
        run.settings.options.steps i ++ codes "\n")) }
    ensures err { IfErr result (λ fault.
        WritesFront W.contents out.old out.new (due_before fault
        (text_at engine.old.spec (own_shown (shown_of run.settings))
        run.settings.options.steps i))) }
    ensures room { IfErr result
        (RunLacks (B.store engine.new.bank) engine.new.work engine.new.memo) }
    ensures deep { RunDeepOnly engine.new.waiting run.settings.depth result }
    ensures bound { OnOk result
        (KeepsLimit run.settings.depth engine.new.bound engine.new.waiting) }
    ensures reports { ReportsOutput out.old out.new result }
    ensures ready { StaysReady S.is_ready engine.old.spec observer.old.reporter observer.new.reporter }
    ensures told { OnOk result (TellsMore S.is_ready S.told engine.old.spec
        observer.old.reporter observer.new.reporter (λ source. value_report S.says source
        engine.old.spec run.settings.options.steps (own_task engine.old.spec i))) }
{
    let settings = RunSettings {
        options: run.settings.options,
        limits: LimitLines::Bare,
        form: run.settings.form,
        sizes: run.settings.sizes,
        depth: run.settings.depth,
        terms: TermChoice::All,
        input: run.settings.input,
    };
    let run = Run {
        alloc: run.alloc,
        settings,
    };
    match engine.eval_term(i) {
        Ok(term) => write_evaluation(run, engine, term, out, observer),
        Err(fault) => Err(engine_fault(fault, 0)),
    }
}

/// Writes a line for each chosen term of a protected list, after those of the specification.
/// Returns the numbers of lines.
fn write_given_lines<B: TermBank, W: Write, V: Watch, P: Profiler, S: Reporter>(
    run: Run,
    engine: &mut Engine<B>,
    list: Term,
    out: &mut Output<'_, W>,
    observer: &mut Observer<V, P, S>,
) -> Result<Counts, RunFault>
    requires protected { ProtectsTerms engine.old.spec (B.store engine.old.bank) list }
    requires ready { IsReadyFor S.is_ready engine.old.spec observer.old.reporter }
    ensures counts { IfOk result (HasCounts run.settings.form run.settings.options.steps
        engine.old.spec (given_chosen run.settings.terms (length engine.old.spec.terms)
        (given_at (B.store engine.old.bank) list))) }
    ensures few { IfOk result AreFew }
    ensures same { SameEngine engine.old engine.new }
    ensures keeps { Keeps (B.store engine.old.bank) (B.store engine.new.bank) [] }
    ensures ok { OnOk result (Writes W.contents out.old out.new
        (given_lines engine.old.spec (shown_of run.settings) run.settings.options.steps
        (given_chosen run.settings.terms (length engine.old.spec.terms)
        (given_at (B.store engine.old.bank) list)))) }
    ensures err { IfErr result (λ fault.
        StopsAfter (length (own_chosen run.settings.terms engine.old.spec.terms)) fault
        (given_lines engine.old.spec (shown_of run.settings) run.settings.options.steps
        (given_chosen run.settings.terms (length engine.old.spec.terms)
        (given_at (B.store engine.old.bank) list)))
        (contents_of W.contents out.old) (contents_of W.contents out.new)) }
    ensures room { IfErr result
        (RunLacks (B.store engine.new.bank) engine.new.work engine.new.memo) }
    ensures deep { RunDeepOnly engine.new.waiting run.settings.depth result }
    ensures bound { OnOk result (KeepsDepth
        (length (given_chosen run.settings.terms (length engine.old.spec.terms)
        (given_at (B.store engine.old.bank) list))) run.settings.depth
        engine.old engine.new) }
    ensures reports { ReportsOutput out.old out.new result }
    ensures ready { StaysReady S.is_ready engine.old.spec observer.old.reporter observer.new.reporter }
    ensures told { OnOk result (TellsMore S.is_ready S.told engine.old.spec
        observer.old.reporter observer.new.reporter (λ source. given_report S.says source
        engine.old.spec run.settings.options.steps
        (given_chosen run.settings.terms (length engine.old.spec.terms)
        (given_at (B.store engine.old.bank) list)))) }
{
    // A list has fewer items than its store has cells.
    let items = u64::from(engine.bank().cells());
    let window = window_of(run.settings.terms, engine.eval_terms(), items);
    let first = u64::from(window.upto - window.from);
    let mut rest = rest_after(engine.bank(), list, window.skipped);
    let mut limit_lines = 0;
    for i in 0..window.most {
        let Kind::Cons = engine.bank().kind(rest) else {
            return Ok(Counts {
                lines: i,
                limit_lines,
            });
        };
        let term = engine.bank().head(rest);
        match write_evaluation(run, engine, term, out, observer) {
            Err(fault) => return Err(after(fault, first + i)),
            Ok(limited) => limit_lines += u64::from(limited),
        }
        rest = engine.bank().tail(rest);
    }
    Ok(Counts {
        lines: window.most,
        limit_lines,
    })
}

/// Returns the rest of a list after `count` items, or its end if it has fewer.
fn rest_after<B: TermBank>(bank: &B, list: Term, count: u64) -> Term
    requires { (spec : Spec) × HoldsTerms spec (B.store bank.now) list }
    ensures { tree_at (B.store bank.now) result
        ≡ Some (list_of (from_list (drop count (given_at (B.store bank.now) list)))) }
{
    let mut rest = list;
    for _index in 0..count {
        match bank.kind(rest) {
            Kind::Cons => rest = bank.tail(rest),
            _ => return rest,
        }
    }
    rest
}
