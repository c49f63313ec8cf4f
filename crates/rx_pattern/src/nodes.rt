//! The nodes of a pattern.

/// The kind of a placeholder.
#[derive(Clone, Copy, PartialEq, Eq, Debug, Drop)]
pub enum Class {
    /// `<term>`: any tree.
    Term,
    /// `<int>`: an integer.
    Int,
    /// `<str>`: a quoted name without arguments.
    Str,
    /// `<appl>`: an application.
    Appl,
    /// `<placeholder>`: a placeholder.
    Placeholder,
    /// `<list>`: a list.
    List,
}

/// A name, and whether it is quoted.
#[derive(Drop)]
pub struct Name {
    pub bytes: Vec<u8>,
    pub quoted: bool,
}

/// A node of a pattern. A tree has its own node, then the nodes of its arguments or items, then
/// those of its annotations; a placeholder has one node. The nodes of a list are an `Item` before
/// each tree in it, and an `End`, or a `Rest` for a last `<list>`.
#[derive(Drop)]
pub enum Node {
    /// An integer.
    Integer(i32),
    /// An application of this name.
    Application(Name),
    /// A list.
    List,
    /// A placeholder.
    Placeholder(Class),
    /// The end of a list.
    End,
    /// One more tree of a list, followed by the rest of the list.
    Item,
    /// The rest of the list, which may be any list.
    Rest,
}
