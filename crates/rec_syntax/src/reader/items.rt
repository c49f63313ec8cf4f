//! Transitions for the title and for the items of the sections before `RULES`.

ghost use Rattle.std.specs.Prelude.{◌≡◌};
ghost use Rattle.rec_syntax.specs.Lexemes.{section_of, Within, IsToken};
ghost use Rattle.rec_syntax.specs.Inner.Machine.{later};
ghost use Rattle.rec_syntax.specs.Parts.{AreSections};
ghost use Rattle.rec_syntax.specs.Inner.Reader.{level_of, IsAt, Steps};

use super::{Due, Reader, Role, Stop, Symbols};
use crate::lexer::{LexemeKind, Part, Span};
use crate::parts::{Declaration, Group};
use smallvec::SmallVec;
use std::mem;

/// Returns whether `part` comes after the open section.
pub(super) fn is_later(level: Option<Part>, part: Part) -> bool
    ensures { result ≡ later (level_of level) (section_of part) }
{
    match level {
        None => true,
        Some(open_part) => (open_part as u8) < (part as u8),
    }
}

impl Reader {
    /// After `REC-SPEC`: takes the name.
    pub(super) fn title(&mut self, token: LexemeKind) -> Result<Due, Stop>
        requires state { IsAt Due.Title self.old }
        requires token { IsToken self.old.source.items token }
        ensures moves { Steps Due.Title self.old token result self.new }
        ensures same { self.new.source ≡ self.old.source }
    {
        match token {
            LexemeKind::Plain(name) => {
                self.sections.name = name;
                Ok(Due::Between(None))
            }
            _ => Err(Stop::Refused),
        }
    }

    /// Takes the identifier with which an item of the open section begins.
    fn item(&mut self, level: Option<Part>, word: Span) -> Result<Due, Stop>
        requires sections { AreSections self.old.source.items self.old.sections }
        requires word { Within self.old.source.items word }
        ensures moves { Steps (Due.Between level) self.old (LexemeKind.Plain word) result self.new }
        ensures same { self.new.source ≡ self.old.source }
    {
        match level {
            None => Err(Stop::Refused),
            Some(Part::Sorts) => {
                self.sections.sorts.push(word)?;
                Ok(Due::Between(level))
            }
            Some(Part::Cons) => Ok(Due::Named(Symbols::Constructors, word)),
            Some(Part::Opns) => Ok(Due::Named(Symbols::Operators, word)),
            Some(Part::Vars) => {
                self.words.clear();
                Ok(Due::Grouped(word))
            }
            Some(Part::Rules) => {
                self.begin(Role::Left);
                Ok(Due::Called(word))
            }
            Some(Part::Eval) => {
                self.begin(Role::InEval);
                Ok(Due::Called(word))
            }
        }
    }

    /// After a whole item: takes the start of another one, a later section's word, or `END-SPEC`.
    pub(super) fn between(&mut self, level: Option<Part>, token: LexemeKind) -> Result<Due, Stop>
        requires sections { AreSections self.old.source.items self.old.sections }
        requires token { IsToken self.old.source.items token }
        ensures moves { Steps (Due.Between level) self.old token result self.new }
        ensures same { self.new.source ≡ self.old.source }
    {
        match token {
            LexemeKind::Plain(word) => self.item(level, word),
            LexemeKind::Head(part) => {
                if is_later(level, part) {
                    Ok(Due::Between(Some(part)))
                } else {
                    Err(Stop::Refused)
                }
            }
            LexemeKind::EndSpec => Ok(Due::Ended),
            _ => Err(Stop::Refused),
        }
    }

    /// After the name of a declaration: takes the colon.
    pub(super) fn after_name(
        &mut self,
        symbols: Symbols,
        name: Span,
        token: LexemeKind,
    ) -> Result<Due, Stop>
        requires state { IsAt (Due.Named symbols name) self.old }
        requires token { IsToken self.old.source.items token }
        ensures moves { Steps (Due.Named symbols name) self.old token result self.new }
        ensures same { self.new.source ≡ self.old.source }
    {
        match token {
            LexemeKind::Colon => {
                self.words.clear();
                Ok(Due::Arguments(symbols, name))
            }
            _ => Err(Stop::Refused),
        }
    }

    /// After the colon of a declaration: takes the sort of an argument, or the arrow.
    pub(super) fn arguments(
        &mut self,
        symbols: Symbols,
        name: Span,
        token: LexemeKind,
    ) -> Result<Due, Stop>
        requires state { IsAt (Due.Arguments symbols name) self.old }
        requires token { IsToken self.old.source.items token }
        ensures moves { Steps (Due.Arguments symbols name) self.old token result self.new }
        ensures same { self.new.source ≡ self.old.source }
    {
        match token {
            LexemeKind::Plain(word) => {
                self.words.push(word)?;
                Ok(Due::Arguments(symbols, name))
            }
            LexemeKind::Arrow => Ok(Due::ResultSort(symbols, name)),
            _ => Err(Stop::Refused),
        }
    }

    /// After the arrow of a declaration: takes the result sort.
    pub(super) fn result_sort(
        &mut self,
        symbols: Symbols,
        name: Span,
        token: LexemeKind,
    ) -> Result<Due, Stop>
        requires state { IsAt (Due.ResultSort symbols name) self.old }
        requires token { IsToken self.old.source.items token }
        ensures moves { Steps (Due.ResultSort symbols name) self.old token result self.new }
        ensures same { self.new.source ≡ self.old.source }
    {
        match token {
            LexemeKind::Plain(sort) => {
                let arguments = mem::replace(&mut self.words, SmallVec::new(self.alloc));
                let declaration = Declaration {
                    name,
                    arguments,
                    sort,
                };
                match symbols {
                    Symbols::Constructors => {
                        self.sections.constructors.push(declaration)?;
                        Ok(Due::Between(Some(Part::Cons)))
                    }
                    Symbols::Operators => {
                        self.sections.operators.push(declaration)?;
                        Ok(Due::Between(Some(Part::Opns)))
                    }
                }
            }
            _ => Err(Stop::Refused),
        }
    }

    /// After the first name of a group of variables: takes another name, or the colon.
    pub(super) fn group_words(&mut self, first: Span, token: LexemeKind) -> Result<Due, Stop>
        requires state { IsAt (Due.Grouped first) self.old }
        requires token { IsToken self.old.source.items token }
        ensures moves { Steps (Due.Grouped first) self.old token result self.new }
        ensures same { self.new.source ≡ self.old.source }
    {
        match token {
            LexemeKind::Plain(word) => {
                self.words.push(word)?;
                Ok(Due::Grouped(first))
            }
            LexemeKind::Colon => Ok(Due::GroupSort(first)),
            _ => Err(Stop::Refused),
        }
    }

    /// After the colon of a group of variables: takes the sort.
    pub(super) fn group_sort(&mut self, first: Span, token: LexemeKind) -> Result<Due, Stop>
        requires state { IsAt (Due.GroupSort first) self.old }
        requires token { IsToken self.old.source.items token }
        ensures moves { Steps (Due.GroupSort first) self.old token result self.new }
        ensures same { self.new.source ≡ self.old.source }
    {
        match token {
            LexemeKind::Plain(sort) => {
                let others = mem::replace(&mut self.words, SmallVec::new(self.alloc));
                self.sections.groups.push(Group {
                    first,
                    others,
                    sort,
                })?;
                Ok(Due::Between(Some(Part::Vars)))
            }
            _ => Err(Stop::Refused),
        }
    }
}
