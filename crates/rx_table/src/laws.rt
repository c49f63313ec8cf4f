//! Properties of tables that follow from the definitions alone.
ghost use Rattle.rx_table.specs.Laws.{OpensOrBreaks, TableIsShort, TableIsTree, TableOpens};

/// The table of a tree is a valid term, and reading it gives the tree.
pub fn table_opens()
    ensures opens { TableOpens }
    ensures tree { TableIsTree }
{}

/// The shared parts of a table are distinct, used twice or more, and no more than the parts.
pub fn table_is_short()
    ensures { TableIsShort }
{}

/// A list has a tree as a table, or breaks a rule, and not both.
pub fn opens_or_breaks()
    ensures { OpensOrBreaks }
{}
