//! The law of the list of words. The function does nothing; its contract states the law.

ghost use Rattle.rec_uses.specs.Laws.{UsesAreWords};

/// If a text spells a specification, its words that are not reserved are the name of the
/// specification and then the words of the list, in their order.
pub fn uses_are_words()
    ensures { UsesAreWords }
{}
