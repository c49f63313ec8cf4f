//! The names of placeholders, and the trees that they match.

ghost use Rattle.std.specs.Prelude.{◌≡◌, IsSome, option_map};
ghost use Rattle.rx_term.specs.Tree.{Tree};
ghost use Rattle.rx_term.specs.Store.{tree_at};
ghost use Rattle.rx_pattern.specs.Pattern.{kind_named, kind_of, fits};
ghost use Rattle.rx_pattern.specs.Nodes.{kind_of_class};

use crate::nodes::Class;
use rx_term::{Kind, Term, TermBank};

/// Returns the kind of the placeholder with this name, if it is one of the six.
pub fn class_named(word: &[u8]) -> Option<Class>
    ensures { option_map kind_of_class result ≡ kind_named word.now }
{
    if word == b"term".as_slice() {
        Some(Class::Term)
    } else if word == b"int".as_slice() {
        Some(Class::Int)
    } else if word == b"str".as_slice() {
        Some(Class::Str)
    } else if word == b"appl".as_slice() {
        Some(Class::Appl)
    } else if word == b"placeholder".as_slice() {
        Some(Class::Placeholder)
    } else if word == b"list".as_slice() {
        Some(Class::List)
    } else {
        None
    }
}

/// Returns the kind of the placeholder with this tree inside, if it is one of the six.
pub fn class_of<B: TermBank>(bank: &B, inner: Term) -> Option<Class>
    requires { IsSome (tree_at (B.store bank.now) inner) }
    ensures { (u : Tree) → tree_at (B.store bank.now) inner ≡ Some u
        → option_map kind_of_class result ≡ kind_of u }
{
    let Kind::Appl(symbol) = bank.kind(inner) else {
        return None;
    };
    if bank.quoted_of(symbol) || bank.arity_of(symbol) > 0 || bank.anns(inner).is_some() {
        return None;
    }
    class_named(bank.name_of(symbol))
}

/// Returns whether a placeholder of this kind matches the tree.
pub fn fits<B: TermBank>(bank: &B, class: Class, t: Term) -> bool
    requires { IsSome (tree_at (B.store bank.now) t) }
    ensures { (u : Tree) → tree_at (B.store bank.now) t ≡ Some u
        → result ≡ fits (kind_of_class class) u }
{
    match class {
        Class::Term => true,
        Class::Int => matches!(bank.kind(t), Kind::Int(_)),
        Class::Str => match bank.kind(t) {
            Kind::Appl(symbol) => bank.quoted_of(symbol) && bank.arity_of(symbol) == 0,
            _ => false,
        },
        Class::Appl => matches!(bank.kind(t), Kind::Appl(_)),
        Class::Placeholder => matches!(bank.kind(t), Kind::Hole),
        Class::List => matches!(bank.kind(t), Kind::Nil | Kind::Cons),
    }
}
