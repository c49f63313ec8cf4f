//! The property of every symbol table. The function does nothing; its contract states the property.

ghost use Rattle.rx_names.specs.Names.{symbols_of, IsOneToOne};

use crate::Names;

/// Each name, flag and number of arguments has at most one symbol.
pub fn one_symbol(names: &Names)
    ensures { IsOneToOne (symbols_of names.now) }
{}
