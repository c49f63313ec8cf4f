//! Runs that read tables, and runs that write tables or lines of a limited length.

ghost use Rattle.std.specs.Prelude.{◌<◌, ◌≤◌};

use crate::rows::push;
use crate::rows::streams::{Sink, bytewise, failing, failing_at, taking};
use rx_render::run_share_dot;
use rx_run::InputForm::{Table, Term};
use rx_run::TermLines::{Table as TableLine, TableAndCells, Text, TextAndCells, Within};
use rx_run::{
    Ending, InputForm, Reason, Refusal, RunFault, Source, TermLines, TermRun, run_on_term,
    run_on_term_over,
};
use rx_shared::SharedBank;
use rx_text::{Input, Output};
use std::alloc::Global;
use std::io::{ErrorKind, Read, Write};
use std::process::Abort;

/// The form of an input, the form of the output, the input, and the lines.
type Row = (InputForm, TermLines, &'static str, &'static str);

static ROWS: [Row; 19] = [
    (Table, Text, "[a]", "a\n"),
    (Table, Text, "[a,b]", "b\n"),
    (Table, Text, "[f(x),g(<0>,<0>)]", "g(f(x),f(x))\n"),
    (Table, Text, "[<[int]>]", "<int>\n"),
    (Table, Text, "[f(x),g(<0>){b}]", "g(f(x)){b}\n"),
    (Table, Text, "[a]{b}", "!term R1\n"),
    (Table, Text, "[a", "!term A\n"),
    (
        Term,
        TableLine,
        "f(pair(a,b),pair(a,b),<7>)",
        "[pair(a,b),f(<0>,<0>,<[7]>)]\n",
    ),
    // texts of 8 and of 9 bytes
    (
        Term,
        TableLine,
        "[h(abcde),h(abcde)]",
        "[[h(abcde),h(abcde)]]\n",
    ),
    (
        Term,
        TableLine,
        "[h(abcdef),h(abcdef)]",
        "[h(abcdef),[<0>,<0>]]\n",
    ),
    (Term, TableLine, "[a", "!term A\n"),
    // the element `a` is written in place, and `pair(a,b)` has a number
    (
        Table,
        TableLine,
        "[a,pair(a,b),f(<1>,pair(<0>,b))]",
        "[pair(a,b),f(<0>,<0>)]\n",
    ),
    (Table, TableLine, "[<0>]", "!term R2\n"),
    // cells of the term alone: a, b, [], [b], [a,b], pair, [pair], [pair,pair] and f
    (
        Table,
        TableAndCells,
        "[c,pair(a,b),f(<1>,<1>)]",
        "[pair(a,b),f(<0>,<0>)]\ncells 9\n",
    ),
    (Term, TableAndCells, "f(a,a)", "[f(a,a)]\ncells 5\n"),
    (Table, TextAndCells, "[f(a,a)]", "f(a,a)\ncells 5\n"),
    (Term, Within(6), "f(a,a)", "f(a,a)\n"),
    (Term, Within(5), "f(a,a)", "!bytes 5\n"),
    (Table, Within(0), "[a]", "!bytes 0\n"),
];

/// Texts that are not tables, and the reasons.
static NO_TABLES: [(&str, Reason); 12] = [
    ("a", Reason::NotTable),
    ("[]", Reason::NotTable),
    ("[a]{b}", Reason::NotTable),
    ("[<0>]{b}", Reason::NotTable),
    ("[<0>]", Reason::Element { number: 0 }),
    ("[a,<1>]", Reason::Element { number: 1 }),
    ("[a,<-1>]", Reason::Element { number: 1 }),
    ("[a,<foo>]", Reason::Element { number: 1 }),
    ("[a,<0>{b}]", Reason::Element { number: 1 }),
    ("[a,<0{b}>]", Reason::Element { number: 1 }),
    ("[a,b,<[b,c]>,<4>]", Reason::Element { number: 2 }),
    ("[a,<<0>>]", Reason::Element { number: 1 }),
];

/// Runs on an input.
fn run<R: Read, W: Write>(
    alloc: Global,
    form: InputForm,
    input: &mut R,
    lines: TermLines,
    out: &mut W,
) -> Result<Ending, RunFault> {
    let run = TermRun { form, lines };
    run_on_term(alloc, &mut Input::new(input), &mut Output::new(out), &run)
}

#[test]
fn tables_and_lengths(rt: HostRuntime) {
    for (form, lines, text, due) in &ROWS {
        let mut written = Vec::new(rt.alloc());
        let end = run(
            rt.alloc(),
            *form,
            &mut text.as_bytes(),
            *lines,
            &mut written,
        );
        let is_refused = matches!(end, Ok(Ending::Refused(_)));
        assert!(&rt;
            end.is_ok() && is_refused == due.starts_with("!term"),
            "{text}"
        );
        assert!(&rt; written.as_slice() == due.as_bytes(), "{text}");
    }
}

/// Returns whether a run ended with this reason.
fn is_refused_for(end: Result<Ending, RunFault>, due: Reason) -> bool {
    let Ok(Ending::Refused(Refusal { text, reason })) = end else {
        return false;
    };
    text == Source::Term
        && match (reason, due) {
            (Reason::NotTable, Reason::NotTable) => true,
            (Reason::Element { number }, Reason::Element { number: wanted }) => number == wanted,
            _ => false,
        }
}

#[test]
fn no_tables(rt: HostRuntime) {
    for (text, reason) in &NO_TABLES {
        let mut written = Vec::new(rt.alloc());
        let end = run(rt.alloc(), Table, &mut text.as_bytes(), Text, &mut written);
        assert!(&rt; is_refused_for(end, *reason), "{text}");
    }
}

/// Returns the table of a tree of 2^60 leaves.
fn of_2_60_leaves(rt: &impl Abort, alloc: Global) -> String {
    let mut text = String::new(alloc);
    push(rt, &mut text, "[node(leaf,leaf)");
    for k in 0..59 {
        let node = format!(in alloc; ",node(<{k}>,<{k}>)").expect(rt, "memory");
        push(rt, &mut text, node.as_str());
    }
    push(rt, &mut text, "]");
    text
}

#[test]
fn more_leaves_than_memory(rt: HostRuntime) {
    let table = of_2_60_leaves(&rt, rt.alloc());
    assert!(&rt; table.len() == 941);
    let mut made = Vec::new(rt.alloc());
    let end = run(
        rt.alloc(),
        Table,
        &mut table.as_bytes(),
        TableLine,
        &mut made,
    );
    assert!(&rt; end.is_ok() && made.as_slice().strip_suffix(b"\n") == Some(table.as_bytes()));
    let mut printed = Vec::new(rt.alloc());
    let most = Within(1_000);
    let end = run(rt.alloc(), Table, &mut table.as_bytes(), most, &mut printed);
    assert!(&rt; end.is_ok() && printed.as_slice() == b"!bytes 1000\n".as_slice());
}

/// Writes the graph of the term of a text in this form.
fn graph(alloc: Global, form: InputForm, text: &str) -> Vec<u8> {
    let mut written = Vec::new(alloc);
    let end = run_share_dot(alloc, form, &mut text.as_bytes(), 100, &mut written);
    match end {
        Ok(Ending::Done) => written,
        _ => Vec::new(alloc),
    }
}

#[test]
fn graph_of_a_table(rt: HostRuntime) {
    let opened = graph(rt.alloc(), Table, "[f(x),g(<0>,<0>)]");
    let plain = graph(rt.alloc(), Term, "g(f(x),f(x))");
    assert!(&rt; opened.starts_with(b"digraph") && opened.as_slice() == plain.as_slice());
}

/// Opens a table of 11 cells into a store with this capacity. Its term `g(f(x),f(x))` has 7 cells.
fn open_into(rt: &impl Abort, alloc: Global, cells: u32) -> Result<Ending, RunFault>
    requires { (0 < cells) × (cells ≤ 1073741824) }
{
    let mut bank = SharedBank::new(alloc, cells).expect(rt, "memory");
    let mut text: &[u8] = b"[f(x),g(<0>,<0>)]";
    let mut written = Vec::new(alloc);
    let mut input = Input::new(&mut text);
    let mut out = Output::new(&mut written);
    let run = TermRun {
        form: Table,
        lines: Text,
    };
    run_on_term_over(alloc, &mut bank, &mut input, &mut out, &run)
}

#[test]
fn room_for_the_term_alone(rt: HostRuntime) {
    assert!(&rt; matches!(open_into(&rt, rt.alloc(), 8), Ok(Ending::Done)));
    let room = RunFault::Room { lines: 0 };
    assert!(&rt; matches!(open_into(&rt, rt.alloc(), 6), Err(fault) if fault == room));
}

/// The table of `h(abcde)`, and a line end.
const WHOLE: &[u8] = b"[h(abcde)]\n";

/// Makes the table of `h(abcde)`.
fn make(alloc: Global, out: &mut Sink) -> Result<Ending, RunFault> {
    run(alloc, Term, &mut bytewise("h(abcde)"), TableLine, out)
}

#[test]
fn each_call_of_a_table_fails(rt: HostRuntime) {
    for number in 1..=4 {
        let mut out = taking(rt.alloc());
        let mut input = failing("[a]", number, ErrorKind::Other);
        let end = run(rt.alloc(), Table, &mut input, Text, &mut out);
        assert!(&rt; matches!(end, Err(RunFault::Read)) && out.held.is_empty());
    }
    for number in 1..=11 {
        let mut out = failing_at(rt.alloc(), number, Some(ErrorKind::Other));
        assert!(&rt; matches!(make(rt.alloc(), &mut out), Err(RunFault::Write)));
        assert!(&rt; out.held.as_slice() == &WHOLE[..number - 1]);
    }
}
