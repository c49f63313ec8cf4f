//! Terms of a checked specification in postfix form, with a number in place of each name.

/// A symbol or a variable, by its number. Symbols are numbered from 0 in the order of the text,
/// constructors first, then operators. Variables are numbered from 0 as well.
#[derive(Clone, Copy, Debug, Drop, PartialEq, Eq)]
pub enum Meaning {
    Symbol(u32),
    Variable(u32),
}

/// A postfix item: a symbol or variable, and the number of its arguments.
#[derive(Clone, Copy, Debug, Drop, PartialEq, Eq)]
pub struct Letter {
    pub meaning: Meaning,
    pub count: u32,
}

/// A condition with its two terms in postfix form: the items of the arguments from left to right,
/// then the item of the root.
#[derive(Debug, Drop)]
pub struct LetterCondition {
    pub left: Vec<Letter>,
    pub right: Vec<Letter>,
    /// Whether the normal forms have to be equal; otherwise they have to differ.
    pub equal: bool,
}

/// A rule with its terms in postfix form.
#[derive(Debug, Drop)]
pub struct LetterRule {
    pub left: Vec<Letter>,
    pub right: Vec<Letter>,
    pub conditions: Vec<LetterCondition>,
}
