//! Tests of the use of the store by runs.

ghost use Rattle.std.specs.Prelude.{◌≡◌, ◌≤◌, ◌^◌, ℕ};

use crate::rows::counting::{Counting, Counts};
use crate::rows::given::run_beside;
use crate::rows::{ADD, Q, expect_ran, push, push_often};
use rec_run::{
    EndedWithin, LimitLines, NoTerms, RunOptions, RunReport, RunSettings, TermChoice, ValueForm,
    run, run_over, unobserved,
};
use rx_run::{Ending, Finish, InputForm, RunFault};
use rx_shared::SharedBank;
use rx_term::TermBank;
use rx_text::Input;
use std::alloc::Global;
use std::process::Abort;

/// Binary numbers, with the lowest digit outside. `spin` counts without end by tail calls; `dive`
/// counts by nested calls.
macro_rules! counter {
    ($term:literal) => {
        concat!(
            "REC-SPEC Counter SORTS N ",
            "CONS e : -> N o : N -> N i : N -> N q : N N -> N ",
            "OPNS inc : N -> N spin : N -> N dive : N -> N tick : N -> N same : N N -> N ",
            "VARS X Y : N ",
            "RULES inc(e) -> i(e) inc(o(X)) -> i(X) inc(i(X)) -> o(inc(X)) ",
            "spin(X) -> spin(inc(X)) ",
            "dive(X) -> q(X,dive(inc(X))) ",
            "tick(X) -> tick(same(X,o(i(o(i(e)))))) same(X,Y) -> X ",
            "EVAL ",
            $term,
            " END-SPEC",
        )
    };
}

const SPIN: &str = counter!("spin(e)");

const DIVE: &str = counter!("dive(e)");

const TICK: &str = counter!("tick(e)");

/// The result of a run over a counting store.
#[derive(Drop)]
struct Counted {
    end: Result<RunReport, RunFault>,
    written: Vec<u8>,
    counts: Counts,
    /// The number of references that the last evaluation needed.
    needed: usize,
    /// The number of cells at the end, and the capacity.
    cells: u32,
    cap: u32,
}

/// Collects the results of a run.
fn tell<B: TermBank + Drop>(ended: EndedWithin<Counting<B>>, written: Vec<u8>) -> Counted {
    let EndedWithin {
        end,
        bank,
        needed: list,
    } = ended;
    let needed = list.len();
    drop(list);
    let counts = bank.counts;
    let cells = bank.cells();
    let cap = bank.cap();
    drop(bank);
    Counted {
        end,
        written,
        counts,
        needed,
        cells,
        cap,
    }
}

/// Returns settings with bare limit lines and without a call-depth limit.
fn settings(options: RunOptions) -> RunSettings
    ensures { result.options ≡ options }
{
    RunSettings {
        options,
        limits: LimitLines::Bare,
        form: ValueForm::Plain,
        sizes: false,
        depth: None,
        terms: TermChoice::All,
        input: InputForm::Term,
    }
}

/// Runs a specification over a store.
fn run_alone_over<B: TermBank + Drop>(
    alloc: Global,
    bank: B,
    mut spec: &[u8],
    options: RunOptions,
) -> Counted
    requires unrooted { (t : ℕ) → (B.store bank).roots t ≡ 0 }
    requires limit { (B.store bank).cap ≡ options.cells }
{
    let mut written = Vec::new(alloc);
    let ended = run_over(
        alloc,
        Counting::new(bank),
        &mut spec,
        &mut NoTerms,
        &mut written,
        settings(options),
        &mut unobserved(),
    );
    tell(ended, written)
}

/// Runs a specification over a counting store.
fn run_counted(rt: &impl Abort, alloc: Global, spec: &str, options: RunOptions) -> Counted {
    let bank = SharedBank::new(alloc, options.cells).expect(rt, "memory");
    run_alone_over(alloc, bank, spec.as_bytes(), options)
}

/// Runs a specification and input terms over a store.
fn run_beside_over<B: TermBank + Drop>(
    alloc: Global,
    bank: B,
    mut spec: &[u8],
    mut terms: &[u8],
    options: RunOptions,
) -> Counted
    requires unrooted { (t : ℕ) → (B.store bank).roots t ≡ 0 }
    requires limit { (B.store bank).cap ≡ options.cells }
{
    let mut written = Vec::new(alloc);
    let ended = run_over(
        alloc,
        Counting::new(bank),
        &mut spec,
        &mut Input::new(&mut terms),
        &mut written,
        settings(options),
        &mut unobserved(),
    );
    tell(ended, written)
}

/// Runs a specification and input terms over a counting store.
fn run_beside_counted(
    rt: &impl Abort,
    alloc: Global,
    spec: &str,
    terms: &str,
    options: RunOptions,
) -> Counted {
    let bank = SharedBank::new(alloc, options.cells).expect(rt, "memory");
    run_beside_over(alloc, bank, spec.as_bytes(), terms.as_bytes(), options)
}

/// Returns options with this step limit and capacity (1 to 1,000,000), without a memo table, that
/// collect after 1,000 new cells.
fn thousand(steps: u32, cells: u32) -> RunOptions {
    RunOptions {
        steps: u64::from(steps),
        cells: cells.clamp(1, 1_000_000),
        memo: 0,
        reclaim: 1_000,
        count: false,
    }
}

/// Aborts the test if a run wrote other lines, or failed.
fn expect_counted(rt: &impl Abort, counted: &Counted, lines: &str) {
    assert!(rt;
        matches!(
            counted.end,
            Ok(RunReport {
                ending: Ending::Done,
                ..
            })
        ) && counted.written.as_slice() == lines.as_bytes(),
        "{lines}"
    );
}

/// Aborts the test unless there were at least 20,000 new cells, as many collections as thousands of
/// them or one less, and one with a list of roots of at least `longest` references.
fn expect_thousands(rt: &impl Abort, counts: &Counts, longest: usize) {
    let thousands = counts.cells / 1_000;
    assert!(rt; thousands >= 20 && counts.reclaims <= thousands);
    assert!(rt; thousands - counts.reclaims <= 1 && counts.longest >= longest);
}

/// A specification that counts without end, the step limit, the line, and a lower bound of the
/// longest list of roots.
type Endless = (&'static str, u32, &'static str, usize);

static ENDLESS: [Endless; 2] = [
    (SPIN, 100_000, "!limit 100000\n", 0),
    (DIVE, 40_000, "!limit 40000\n", 10_001),
];

#[test]
fn a_reclaim_for_each_thousand_cells(rt: HostRuntime) {
    for (text, steps, line, longest) in &ENDLESS {
        let counted = run_counted(&rt, rt.alloc(), text, thousand(*steps, 1_000_000));
        expect_counted(&rt, &counted, line);
        expect_thousands(&rt, &counted.counts, *longest);
    }
}

/// A million steps of tail calls need no more than numbers of twenty bits.
#[test]
fn last_calls_need_nothing(rt: HostRuntime) {
    let spun = run_counted(&rt, rt.alloc(), SPIN, thousand(1_000_000, 2_000));
    expect_counted(&rt, &spun, "!limit 1000000\n");
    assert!(rt; spun.counts.longest < 50 && spun.cells < 1_200);
}

/// A constant is made once, and not again in each of many steps. Nothing more is made there.
#[test]
fn constants_are_made_once(rt: HostRuntime) {
    let ticked = run_counted(&rt, rt.alloc(), TICK, thousand(10_000, 1_000_000));
    expect_counted(&rt, &ticked, "!limit 10000\n");
    assert!(rt; ticked.counts.makes < 50);
}

/// Returns the default options of the program with this step limit.
fn default_options(steps: u64) -> RunOptions
    requires { steps ≤ 10 ^ 18 }
{
    RunOptions {
        steps,
        cells: 16_777_216,
        memo: 65_536,
        reclaim: 262_144,
        count: false,
    }
}

/// Appends a specification that takes 3,377,699,720,527,870 steps, nearly all of which are
/// memoized.
fn push_fast(rt: &impl Abort, text: &mut String) {
    push(
        rt,
        text,
        "REC-SPEC Fast SORTS Nat \
            CONS z : -> Nat s : Nat -> Nat \
            OPNS k : Nat -> Nat q : Nat Nat -> Nat \
            VARS X Y : Nat \
            RULES k(z) -> z k(s(X)) -> q(k(X),k(X)) q(X,Y) -> X \
            EVAL k(",
    );
    push_often(rt, text, "s(", 50);
    push(rt, text, "z");
    push_often(rt, text, ")", 50);
    push(rt, text, ") END-SPEC");
}

/// Aborts the test unless a run of a specification succeeds with these lines.
fn expect_run(rt: &impl Abort, alloc: Global, mut text: &[u8], options: RunOptions, lines: &str) {
    let mut written = Vec::new(alloc);
    let end = run(alloc, &mut text, None::<&mut &[u8]>, &mut written, options);
    assert!(rt;
        end == Ok(Finish::Done) && written.as_slice() == lines.as_bytes(),
        "{lines}"
    );
}

#[test]
fn remembered_steps(rt: HostRuntime) {
    let mut text = String::new(rt.alloc());
    push_fast(&rt, &mut text);
    let enough = default_options(3_377_699_720_527_870);
    expect_run(&rt, rt.alloc(), text.as_bytes(), enough, "z\n");
    let fewer = default_options(3_377_699_720_527_869);
    let line = "!limit 3377699720527869\n";
    expect_run(&rt, rt.alloc(), text.as_bytes(), fewer, line);
}

/// Returns options with a store of three cells.
fn three_cells() -> RunOptions {
    let mut options = default_options(9);
    options.cells = 3;
    options
}

/// `[]`, `a` and `[a]` are three cells; `[b,a]` has five.
#[test]
fn given_terms_in_three_cells(rt: HostRuntime) {
    let short = run_beside(rt.alloc(), Q.as_bytes(), b"[b,a]", three_cells());
    assert!(rt; short.result == Err(RunFault::Room { lines: 0 }) && short.written.is_empty());
    let refused = run_beside(rt.alloc(), Q.as_bytes(), b"[3]", three_cells());
    expect_ran(&rt, &refused, Finish::Refused, None, "!terms T2\n");
}

/// Aborts the test unless a run ended with a full store that has this number of cells.
fn expect_full(rt: &impl Abort, counted: &Counted, cells: u32) {
    assert!(rt; matches!(counted.end, Err(RunFault::Room { lines: 0 })));
    assert!(rt; counted.cells == cells && counted.cap == cells);
}

/// Aborts the test if a reference was needed, a cell was freed, or a line was written.
fn expect_untouched(rt: &impl Abort, counted: &Counted) {
    assert!(rt; counted.needed == 0 && counted.counts.reclaims == 0 && counted.written.is_empty());
}

/// The text of the terms fills the store before anything is needed, and nothing is freed.
#[test]
fn given_terms_fill_a_bank_of_three_cells(rt: HostRuntime) {
    let short = run_beside_counted(&rt, rt.alloc(), Q, "[b,a]", three_cells());
    expect_full(&rt, &short, 3);
    expect_untouched(&rt, &short);
}

/// Appends a specification with `count` terms to evaluate.
fn push_terms(rt: &impl Abort, text: &mut String, count: u32) {
    push(
        rt,
        text,
        "REC-SPEC Many SORTS N CONS a : -> N OPNS f : N -> N ",
    );
    push(rt, text, "VARS X : N RULES f(X) -> X EVAL");
    push_often(rt, text, " f(a)", count);
    push(rt, text, " END-SPEC");
}

#[test]
fn a_thousand_terms(rt: HostRuntime) {
    let mut text = String::new(rt.alloc());
    push_terms(&rt, &mut text, 1_000);
    let mut lines = String::new(rt.alloc());
    push_often(&rt, &mut lines, "a\n", 1_000);
    expect_run(
        &rt,
        rt.alloc(),
        text.as_bytes(),
        default_options(1),
        lines.as_str(),
    );
}

/// The term of a sum has eight cells, and its normal form has two more. The term, the empty list
/// and a few intermediate results are needed.
#[test]
fn want_of_cells_leaves_a_full_bank(rt: HostRuntime) {
    let short = run_counted(&rt, rt.alloc(), ADD, thousand(3, 9));
    expect_full(&rt, &short, 9);
    assert!(rt; short.needed <= 12);
}
