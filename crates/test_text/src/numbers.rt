//! Tests of printing with numbers in place of terms, and of the nodes of a text.

use crate::banks::{expect_text, plain_bank, term_of};
use crate::texts::expect;
use rx_plain::PlainBank;
use rx_term::{Term, TermBank};
use rx_text::{Node, Numbers, Output, Printer, TextFault, make_node, parse};
use std::alloc::Global;
use std::process::Abort;

/// One number for all terms, or for none.
#[derive(Clone, Copy, Drop)]
struct Same {
    number: Option<u32>,
}

impl Numbers for Same {
    ghost use Rattle.rx_text.specs.Numbered.{Numbered};

    ghost style = { λ numbers _. Numbered (λ _. numbers.number) };

    ghost are_for = { λ _ _. Unit {0} };

    fn are_some(&self) -> bool {
        true
    }

    fn number_of(&self, _t: Term) -> Option<u32> {
        self.number
    }
}

/// Texts of terms, the form of each where no term has a number, and where each one inside of it has
/// the number 3.
const NUMBERED: [(&str, &str, &str); 5] = [
    ("7", "7", "7"),
    ("f(a,[1,2]){b}", "f(a,[1,2]){b}", "f(<3>,<3>){<3>}"),
    ("[a,a]", "[a,a]", "[<3>,<3>]"),
    ("<7>", "<[7]>", "<[<3>]>"),
    ("<a{b}>{c}", "<[a{b}]>{c}", "<[<3>]>{<3>}"),
];

/// Returns the form of a term, with its own number or without.
fn form_of(
    rt: &impl Abort,
    alloc: Global,
    printer: &Printer<'_, PlainBank, Same>,
    t: Term,
    is_entry: bool,
) -> Vec<u8> {
    assert!(rt; printer.bank.holds(t));
    let mut text = Vec::new(alloc);
    let mut out = Output::new(&mut text);
    let written = if is_entry {
        printer.write_entry(alloc, t, &mut out)
    } else {
        printer.write_term(alloc, t, &mut out)
    };
    assert!(rt; written.is_ok());
    drop(out);
    text
}

/// Aborts the test unless a term has this form, with its own number or without.
fn expect_form(
    rt: &impl Abort,
    alloc: Global,
    printer: &Printer<'_, PlainBank, Same>,
    t: Term,
    entry: &str,
) {
    let form = form_of(rt, alloc, printer, t, true);
    expect(rt, form.as_slice() == entry.as_bytes(), entry);
    let whole = match printer.numbers.number {
        Some(_) => "<3>",
        None => entry,
    };
    let form = form_of(rt, alloc, printer, t, false);
    expect(rt, form.as_slice() == whole.as_bytes(), entry);
}

#[test]
fn numbers_stand_for_terms(rt: HostRuntime) {
    let alloc = rt.alloc();
    for (text, plain, entry) in &NUMBERED {
        let mut bank = plain_bank(&rt, alloc, 100);
        let t = term_of(&rt, alloc, &mut bank, text.as_bytes());
        for (number, wanted) in [(None, *plain), (Some(3), *entry)] {
            let numbers = Same { number };
            let printer = Printer {
                bank: &bank,
                numbers,
            };
            expect_form(&rt, alloc, &printer, t, wanted);
        }
    }
}

/// Each node comes after those of its parts; a name is that of the bytes from 0 to 1.
#[test]
fn nodes_of_a_text(rt: HostRuntime) {
    let alloc = rt.alloc();
    let nodes = parse(alloc, b"f(a,[1]){<b>}").expect(&rt, "nodes");
    assert!(&rt; nodes.len() == 7);
    assert!(&rt; matches!(nodes[0], Node::Application(_, 0)));
    assert!(&rt; matches!(nodes[1], Node::Integer(1)) && matches!(nodes[2], Node::List(1)));
    let Node::Application(name, 2) = nodes[3] else {
        assert!(&rt; false);
        return;
    };
    assert!(&rt; name.from == 0 && name.to == 1 && !name.quoted);
    assert!(&rt; matches!(nodes[4], Node::Application(_, 0)));
    assert!(&rt; matches!(nodes[5], Node::Placeholder) && matches!(nodes[6], Node::Annotations(1)));
    assert!(&rt; parse(alloc, b"f(a").err() == Some(TextFault::Grammar { at: 3 }));
}

#[test]
fn a_term_of_one_node(rt: HostRuntime) {
    let alloc = rt.alloc();
    let mut bank = plain_bank(&rt, alloc, 10);
    let mut made = Vec::new(alloc);
    let t = make_node(b"", Node::Integer(-7), &mut made, &mut bank).expect(&rt, "a term");
    assert!(&rt; made.is_empty() && bank.holds(t));
    expect_text(&rt, alloc, &bank, t, b"-7");
}
