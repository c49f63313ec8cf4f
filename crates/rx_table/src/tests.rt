//! Tables of texts.

use crate::term_index::TermIndex;
use crate::{TableFault, copy_term, count_cells, read_table, write_table_to};
use rx_shared::SharedBank;
use rx_term::{Term, TermBank};
use rx_text::{Output, read, write};
use std::alloc::Global;
use std::process::Abort;

/// Texts of terms, and their tables. A part of 8 bytes and one that is used once have no element.
const TABLES: [(&str, &str); 10] = [
    ("a", "[a]"),
    ("<int>", "[<[int]>]"),
    ("g(aaaaaaaa,aaaaaaaa)", "[g(aaaaaaaa,aaaaaaaa)]"),
    ("g(aaaaaaaaa,aaaaaaaaa)", "[aaaaaaaaa,g(<0>,<0>)]"),
    ("f(pair(a,b))", "[f(pair(a,b))]"),
    ("f(pair(a,b),pair(a,b),<7>)", "[pair(a,b),f(<0>,<0>,<[7]>)]"),
    ("g(f(pair(1,2)),f(pair(1,2)))", "[f(pair(1,2)),g(<0>,<0>)]"),
    (
        "h(pair(a,b),f(pair(a,b)),f(pair(a,b)))",
        "[pair(a,b),f(<0>),h(<0>,<1>,<1>)]",
    ),
    ("a{pair(1,2),pair(1,2)}", "[pair(1,2),a{<0>,<0>}]"),
    ("<<pair(1,2)>>{pair(1,2)}", "[pair(1,2),<[<[<0>]>]>{<0>}]"),
];

/// Returns an empty store.
fn empty_bank(rt: &impl Abort, alloc: Global) -> SharedBank {
    SharedBank::new(alloc, 100_000).expect(rt, "a store")
}

/// Returns a store with terms of its own, so that its references and symbols have other numbers.
fn other_bank(rt: &impl Abort, alloc: Global) -> SharedBank {
    let mut bank = empty_bank(rt, alloc);
    let t = read(alloc, b"[3,h(b,<a>{b},pair(1,f(leaf)))]", &mut bank).expect(rt, "a term");
    assert!(rt; bank.holds(t));
    bank
}

/// Aborts the test unless a term has this text.
fn expect_text<B: TermBank>(rt: &impl Abort, alloc: Global, bank: &B, t: Term, wanted: &[u8]) {
    assert!(rt; bank.holds(t));
    let mut found = Vec::new(alloc);
    assert!(rt; write(alloc, bank, t, &mut found).is_ok());
    assert!(rt; found.as_slice() == wanted);
}

/// Aborts the test unless the table of a text has this text.
fn expect_table(rt: &impl Abort, alloc: Global, text: &[u8], wanted: &[u8]) {
    let mut bank = other_bank(rt, alloc);
    let t = read(alloc, text, &mut bank).expect(rt, "a term");
    assert!(rt; bank.holds(t));
    let mut found = Vec::new(alloc);
    assert!(rt; write_table_to(alloc, &bank, t, &mut Output::new(&mut found)).is_ok());
    assert!(rt; found.as_slice() == wanted);
}

#[test]
fn tables_of_terms(rt: HostRuntime) {
    let alloc = rt.alloc();
    for (text, wanted) in &TABLES {
        expect_table(&rt, alloc, text.as_bytes(), wanted.as_bytes());
    }
}

/// Returns the text of a tree with 2^`height` leaves.
fn tree_text(rt: &impl Abort, alloc: Global, height: u32) -> Vec<u8> {
    let mut text = Vec::from_slice(alloc, b"leaf").expect(rt, "memory");
    for _level in 0..height {
        let mut next = Vec::from_slice(alloc, b"node(").expect(rt, "memory");
        assert!(rt; next.extend_from_slice(&text).is_ok());
        assert!(rt; next.push(b',').is_ok());
        assert!(rt; next.extend_from_slice(&text).is_ok());
        assert!(rt; next.push(b')').is_ok());
        text = next;
    }
    text
}

/// A tree with 2^10 leaves has a table of 10 elements.
#[test]
fn a_balanced_tree(rt: HostRuntime) {
    let alloc = rt.alloc();
    let wanted = b"[node(leaf,leaf),node(<0>,<0>),node(<1>,<1>),node(<2>,<2>),node(<3>,<3>),\
        node(<4>,<4>),node(<5>,<5>),node(<6>,<6>),node(<7>,<7>),node(<8>,<8>)]";
    expect_table(&rt, alloc, &tree_text(&rt, alloc, 10), wanted);
}

/// Texts of tables, and of their terms. Elements need not be used, and an element can be a number.
const OPENED: [(&str, &str); 20] = [
    ("[a]", "a"),
    ("[a,b]", "b"),
    ("[f(x),g(<0>,<0>)]", "g(f(x),f(x))"),
    ("[f(x),g(<0>){b}]", "g(f(x)){b}"),
    ("[a,<0>]", "a"),
    ("[a{b},<0>{}]", "a{b}"),
    ("[a{b},<0{}>{}]", "a{b}"),
    ("[a,f(<[<0>]{}>,<[7]>{<0>})]{}", "f(<a>,<7>{a})"),
    ("[[a,b],<[[<0>]]>]", "<[[a,b]]>"),
    (" [ f ( x ) , g ( < 0 > , < 0 > ) ] ", "g(f(x),f(x))"),
    (
        "[f(1,2),[3,f(<0>),<[<[<0>]>]>]]",
        "[3,f(f(1,2)),<<f(1,2)>>]",
    ),
    ("[<[int]>]", "<int>"),
    ("[<[5]>,f(<0>,5)]", "f(<5>,5)"),
    ("[<[<[3]>]>]", "<<3>>"),
    ("[a,<[<0>]>]", "<a>"),
    ("[a,<[[<0>,b]]>{<0>}]", "<[a,b]>{a}"),
    ("[a{1},[<0>,<0>]]", "[a{1},a{1}]"),
    ("[pair(a,b),f(<0>,<0>,<[7]>)]", "f(pair(a,b),pair(a,b),<7>)"),
    (
        "[a,f(<0>),g(<1>,<0>),h(<2>,<1>){<0>}]",
        "h(g(f(a),a),f(a)){a}",
    ),
    (
        "[a,f(<0>,<[<0>]>),b,g(<1>,<0>,<[<2>]>)]",
        "g(f(a,<a>),a,<b>)",
    ),
];

/// Texts that are no tables.
const NO_TABLES: [&str; 9] = [
    "a", "3", "<0>", "[]", "[]{b}", "[a]{b}", "f([a])", "<[a]>", "[<0>]{b}",
];

/// Texts of tables with a placeholder of another form, and the number of the first element that
/// has one.
const BROKEN: [(&str, usize); 27] = [
    ("[<0>]", 0),
    ("[a,<1>]", 1),
    ("[a,<2>,b]", 1),
    ("[a,b,f(c,<2>)]", 2),
    ("[a,<2147483647>]", 1),
    ("[a,<-1>]", 1),
    ("[a,<-2147483648>]", 1),
    ("[a,<foo>]", 1),
    ("[a,<0>{b}]", 1),
    ("[a,<0{b}>]", 1),
    ("[a,<[]>]", 1),
    ("[a,<[b,c]>]", 1),
    ("[a,<[b]{c}>]", 1),
    ("[a,<<0>>]", 1),
    ("[a,<[<1>]>]", 1),
    ("[a,b{<foo>}]", 1),
    ("[a,<[b]>{<7>}]", 1),
    ("[f(<0>),<9>,b]", 0),
    ("[a,b,<0>{c}]", 2),
    ("[a,b,[c,<2>]]", 2),
    ("[a,b,[c,d,<3>],<2>]", 2),
    ("[a,f(b,g(c,<2>),<1>)]", 1),
    ("[[a,<0>],b]", 0),
    ("[a,b{<1>}]", 1),
    ("[a,<[b]>{<1>}]", 1),
    ("[a,<<[b]>>]", 1),
    ("[a,<f(<0>)>]", 1),
];

/// Texts with a syntax error, and its offset.
const OUTSIDE: [(&str, u32); 5] = [
    ("", 0),
    ("[a,<0]", 5),
    ("[a,<0>", 6),
    ("[a] b", 4),
    ("[<0>]]", 5),
];

/// Aborts the test unless a text is read as a table of the term with the text `wanted`.
fn expect_term(rt: &impl Abort, alloc: Global, text: &[u8], wanted: &[u8]) {
    let mut bank = other_bank(rt, alloc);
    let t = read_table(alloc, text, &mut bank).expect(rt, "a table");
    expect_text(rt, alloc, &bank, t, wanted);
}

#[test]
fn terms_of_tables(rt: HostRuntime) {
    let alloc = rt.alloc();
    for (text, wanted) in &OPENED {
        expect_term(&rt, alloc, text.as_bytes(), wanted.as_bytes());
    }
    for (text, table) in &TABLES {
        expect_term(&rt, alloc, table.as_bytes(), text.as_bytes());
    }
}

/// Aborts the test unless reading a text as a table fails with this error.
fn expect_fault(rt: &impl Abort, alloc: Global, text: &[u8], wanted: TableFault) {
    let mut bank = empty_bank(rt, alloc);
    assert!(rt; read_table(alloc, text, &mut bank) == Err(wanted));
}

#[test]
fn broken_tables(rt: HostRuntime) {
    let alloc = rt.alloc();
    for text in &NO_TABLES {
        expect_fault(&rt, alloc, text.as_bytes(), TableFault::NotTable);
    }
    for (text, number) in &BROKEN {
        expect_fault(
            &rt,
            alloc,
            text.as_bytes(),
            TableFault::Element { number: *number },
        );
    }
    for (text, at) in &OUTSIDE {
        expect_fault(&rt, alloc, text.as_bytes(), TableFault::Grammar { at: *at });
    }
}

/// Returns the text of the list of `first` and `height` elements, each of which has the element
/// before it twice.
fn doubling_table(rt: &impl Abort, alloc: Global, first: &[u8], height: usize) -> Vec<u8> {
    let mut text = Vec::from_slice(alloc, b"[").expect(rt, "memory");
    assert!(rt; text.extend_from_slice(first).is_ok());
    for level in 0..height {
        let element = format!(in alloc; ",node(<{level}>,<{level}>)").expect(rt, "memory");
        assert!(rt; text.extend_from_slice(element.as_bytes()).is_ok());
    }
    assert!(rt; text.push(b']').is_ok());
    text
}

/// A table of 19,000 bytes is read as a tree with 2^1000 leaves, which has three cells for each of
/// its 1,000 nodes, one for the leaf and one for the empty list: the node and the list of its
/// arguments.
#[test]
fn a_huge_tree(rt: HostRuntime) {
    let alloc = rt.alloc();
    let mut bank = empty_bank(&rt, alloc);
    let text = doubling_table(&rt, alloc, b"leaf", 1000);
    let t = read_table(alloc, &text, &mut bank).expect(&rt, "a table");
    assert!(rt; bank.holds(t));
    assert!(rt; bank.cells() == 3002);
    assert!(rt; count_cells(alloc, &bank, t) == Ok(3002));
    let mut found = Vec::new(alloc);
    assert!(rt; write_table_to(alloc, &bank, t, &mut Output::new(&mut found)).is_ok());
    let wanted = doubling_table(&rt, alloc, b"node(leaf,leaf)", 999);
    assert!(rt; found.as_slice() == wanted.as_slice());
}

/// References in one page and in pages far apart have the numbers in which they were added.
#[test]
fn indices_of_references(rt: HostRuntime) {
    let alloc = rt.alloc();
    let terms = [5, 0, 1_023, 1_024, 70_000_000];
    let mut index = TermIndex::new(alloc);
    for (number, t) in terms.iter().enumerate() {
        assert!(rt; index.index_of(*t) == None);
        assert!(rt; index.add(*t) == Ok((number, true)));
    }
    for (number, t) in terms.iter().enumerate() {
        assert!(rt; index.index_of(*t) == Some(number));
        assert!(rt; index.add(*t) == Ok((number, false)));
    }
    for absent in &[1, 1_025, 2_048, 70_000_001, 4_000_000_000] {
        assert!(rt; index.index_of(*absent) == None);
    }
    assert!(rt; index.as_slice() == terms.as_slice());
}

/// Copies have the text of the term, without cells of other terms.
#[test]
fn copies(rt: HostRuntime) {
    let alloc = rt.alloc();
    for (text, table) in &TABLES {
        for copied in &[text, table] {
            let mut bank = other_bank(&rt, alloc);
            let t = read(alloc, copied.as_bytes(), &mut bank).expect(&rt, "a term");
            assert!(rt; bank.holds(t));
            let mut other = empty_bank(&rt, alloc);
            let copy = copy_term(alloc, &bank, t, &mut other).expect(&rt, "a copy");
            expect_text(&rt, alloc, &other, copy, copied.as_bytes());
        }
    }
}

/// Texts, and the number of cells of their terms. Each list has a cell for each different tail.
const COUNTS: [(&str, u32); 7] = [
    ("[]", 1),
    ("7", 1),
    ("a", 2),
    ("<int>", 3),
    ("[a,a]", 4),
    ("f(pair(a,b),pair(a,b),<7>)", 12),
    ("a{pair(1,2),pair(1,2)}", 9),
];

#[test]
fn cells_of_terms(rt: HostRuntime) {
    let alloc = rt.alloc();
    for (text, wanted) in &COUNTS {
        let mut bank = other_bank(&rt, alloc);
        let t = read(alloc, text.as_bytes(), &mut bank).expect(&rt, "a term");
        assert!(rt; bank.holds(t));
        assert!(rt; count_cells(alloc, &bank, t) == Ok(*wanted));
    }
}

/// The term of this table has five cells: the empty list, the leaf, two lists of it and the node.
#[test]
fn a_full_store(rt: HostRuntime) {
    let alloc = rt.alloc();
    let text = b"[leaf,node(<0>,<0>)]";
    let mut bank = SharedBank::new(alloc, 5).expect(&rt, "a store");
    assert!(rt; read_table(alloc, text, &mut bank).is_ok());
    let mut bank = SharedBank::new(alloc, 4).expect(&rt, "a store");
    assert!(rt; read_table(alloc, text, &mut bank) == Err(TableFault::Full));
    assert!(rt; bank.cells() == 4);
}
