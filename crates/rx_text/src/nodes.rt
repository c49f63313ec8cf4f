//! A tree as a flat list of nodes, each after those of its parts.

/// The range of a name in the text: its bytes, or those between its quotes.
#[derive(Clone, Copy, Drop)]
pub struct Word {
    pub from: u32,
    pub to: u32,
    pub quoted: bool,
}

impl Word {
    /// The empty plain name.
    pub const EMPTY: Word = Word {
        from: 0,
        to: 0,
        quoted: false,
    };
}

/// A node. It is applied to the newest trees.
#[derive(Clone, Copy, Drop)]
pub enum Node {
    /// An integer. Takes no tree.
    Integer(i32),
    /// The application of a name to this number of trees.
    Application(Word, u32),
    /// The list of this number of trees.
    List(u32),
    /// The placeholder of one tree.
    Placeholder,
    /// Annotates the tree below this number of trees with them. The number is not 0.
    Annotations(u32),
}
