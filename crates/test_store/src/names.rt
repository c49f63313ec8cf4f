//! Tests that each name, flag and number of arguments has one symbol.
ghost use Rattle.std.specs.Prelude.{IsSome};
ghost use Rattle.std.specs.FinMap.{get};
ghost use Rattle.rx_names.specs.Names.{symbols_of};

use rx_names::{Names, laws};
use rx_term::Symbol;
use std::process::Abort;

/// Aborts if an unknown name has a symbol, or a quoted name has another symbol than this.
fn expect_found(rt: &impl Abort, names: &Names, quoted: Symbol) {
    assert!(rt; names.find(b"a", true, 0) == Some(quoted));
    assert!(rt; names.find(b"b", false, 0).is_none());
}

/// Aborts if a symbol has another name than `a`, is quoted, or does not have one argument.
fn expect_unary(rt: &impl Abort, names: &Names, unary: Symbol)
    requires { IsSome (get (symbols_of names.now) unary.0) }
{
    laws::one_symbol(names);
    let (name, flag, arity) = names.get(unary);
    assert!(rt; name == b"a".as_slice() && !flag && arity == 1);
}

/// Makes a symbol twice, and two that differ from it, in an empty table.
fn make_symbols(rt: &impl Abort, names: &mut Names) {
    let first = names.intern(b"a", false, 0).expect(rt, "`a`");
    let again = names.intern(b"a", false, 0).expect(rt, "`a` again");
    let quoted = names.intern(b"a", true, 0).expect(rt, "`\"a\"`");
    let unary = names
        .intern(b"a", false, 1)
        .expect(rt, "`a` of one argument");
    assert!(rt; first == again);
    assert!(rt; first != quoted && first != unary && quoted != unary);
    expect_found(rt, names, quoted);
    expect_unary(rt, names, unary);
}

#[test]
fn symbols_differ_by_name_flag_and_arity(rt: HostRuntime) {
    let mut names = Names::new(rt.alloc()).expect(&rt, "a table");
    make_symbols(&rt, &mut names);
}
