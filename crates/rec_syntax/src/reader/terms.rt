//! Transitions for terms, and for the rules and EVAL terms that consist of them.

ghost use Rattle.std.specs.Prelude.{◌≡◌, []};
ghost use Rattle.rec_syntax.specs.Lexemes.{IsToken};
ghost use Rattle.rec_syntax.specs.Parts.{IsTerm, IsCondition, IsRule, AreSections};
ghost use Rattle.rec_syntax.specs.Inner.Reader.{IsAt, IsRole, Steps, Completes};

use super::{Call, Due, Reader, Role, Stop};
use crate::lexer::{LexemeKind, Part, Span};
use crate::parts::{Condition, Node, Rule, Term};
use smallvec::SmallVec;
use std::mem;

impl Reader {
    /// Starts a new term in this role, of which nothing is read.
    pub(super) fn begin(&mut self, role: Role)
        ensures role { self.new.role ≡ role }
        ensures calls { self.new.calls.items ≡ [] }
        ensures nodes { self.new.nodes.items ≡ [] }
        ensures sections { self.new.sections ≡ self.old.sections }
        ensures same { self.new.source ≡ self.old.source }
    {
        self.role = role;
        self.calls.clear();
        self.nodes.clear();
    }

    /// Takes the identifier with which a term begins.
    pub(super) fn at_term(&mut self, token: LexemeKind) -> Result<Due, Stop>
        requires state { IsAt Due.AtTerm self.old }
        requires token { IsToken self.old.source.items token }
        ensures moves { Steps Due.AtTerm self.old token result self.new }
        ensures same { self.new.source ≡ self.old.source }
    {
        match token {
            LexemeKind::Plain(word) => Ok(Due::Called(word)),
            _ => Err(Stop::Refused),
        }
    }

    /// After the identifier of a term: takes an opening parenthesis, or a token that can follow a
    /// term.
    pub(super) fn after_word(&mut self, word: Span, token: LexemeKind) -> Result<Due, Stop>
        requires state { IsAt (Due.Called word) self.old }
        requires token { IsToken self.old.source.items token }
        ensures moves { Steps (Due.Called word) self.old token result self.new }
        ensures same { self.new.source ≡ self.old.source }
    {
        match token {
            LexemeKind::Open => Ok(Due::First(word)),
            _ => {
                self.nodes.push(Node { word, count: 0 })?;
                self.after(token)
            }
        }
    }

    /// After an opening parenthesis: takes the first argument's identifier, or the closing
    /// parenthesis.
    pub(super) fn first(&mut self, word: Span, token: LexemeKind) -> Result<Due, Stop>
        requires state { IsAt (Due.First word) self.old }
        requires token { IsToken self.old.source.items token }
        ensures moves { Steps (Due.First word) self.old token result self.new }
        ensures same { self.new.source ≡ self.old.source }
    {
        match token {
            LexemeKind::Plain(argument) => {
                self.calls.push(Call { word, count: 0 })?;
                Ok(Due::Called(argument))
            }
            LexemeKind::Close => {
                self.nodes.push(Node { word, count: 0 })?;
                Ok(Due::After)
            }
            _ => Err(Stop::Refused),
        }
    }

    /// After a whole term: takes a comma, a closing parenthesis, or a token that can follow its
    /// item.
    pub(super) fn after(&mut self, token: LexemeKind) -> Result<Due, Stop>
        requires state { IsAt Due.After self.old }
        requires token { IsToken self.old.source.items token }
        ensures moves { Steps Due.After self.old token result self.new }
        ensures same { self.new.source ≡ self.old.source }
    {
        match self.calls.pop() {
            None => self.complete(token),
            Some(call) => match token {
                LexemeKind::Comma => {
                    self.calls.push(Call {
                        word: call.word,
                        count: call.count + 1,
                    })?;
                    Ok(Due::AtTerm)
                }
                LexemeKind::Close => {
                    self.nodes.push(Node {
                        word: call.word,
                        count: call.count + 1,
                    })?;
                    Ok(Due::After)
                }
                _ => Err(Stop::Refused),
            },
        }
    }

    /// After a whole term that is not an argument. Its nodes are copied into exactly as much room
    /// as they take, so that the reader's own vectors are reused for the next term.
    fn complete(&mut self, token: LexemeKind) -> Result<Due, Stop>
        requires state { IsAt Due.After self.old }
        requires alone { self.old.calls.items ≡ [] }
        requires token { IsToken self.old.source.items token }
        ensures moves { Completes self.old.role (record { nodes = self.old.nodes }) self.old token
            result self.new }
        ensures same { self.new.source ≡ self.old.source }
    {
        let nodes = Vec::from_slice(self.alloc, &self.nodes)?;
        self.take_term(Term { nodes }, token)
    }

    /// After the whole term `term`, which is not an argument: takes the token that follows it.
    fn take_term(&mut self, term: Term, token: LexemeKind) -> Result<Due, Stop>
        requires sections { AreSections self.old.source.items self.old.sections }
        requires role { IsRole self.old.source.items self.old.role }
        requires term { IsTerm self.old.source.items term }
        requires token { IsToken self.old.source.items token }
        ensures moves { Completes self.old.role term self.old token result self.new }
        ensures same { self.new.source ≡ self.old.source }
    {
        match mem::replace(&mut self.role, Role::Left) {
            Role::Left => self.after_left(term, token),
            Role::Right(left) => self.after_right(left, term, token),
            Role::ConditionLeft(rule) => self.after_condition_left(rule, term, token),
            Role::ConditionRight(rule, left, equal) => {
                let condition = Condition {
                    left,
                    right: term,
                    equal,
                };
                self.after_condition(rule, condition, token)
            }
            Role::InEval => {
                self.sections.terms.push(term)?;
                self.between(Some(Part::Eval), token)
            }
        }
    }

    /// After the left-hand side of a rule: takes the arrow.
    fn after_left(&mut self, left: Term, token: LexemeKind) -> Result<Due, Stop>
        requires sections { AreSections self.old.source.items self.old.sections }
        requires left { IsTerm self.old.source.items left }
        ensures moves { Completes Role.Left left self.old token result self.new }
        ensures same { self.new.source ≡ self.old.source }
    {
        match token {
            LexemeKind::Arrow => {
                self.begin(Role::Right(left));
                Ok(Due::AtTerm)
            }
            _ => Err(Stop::Refused),
        }
    }

    /// After the right-hand side of a rule: takes `if`, or a token that can follow a rule.
    fn after_right(&mut self, left: Term, right: Term, token: LexemeKind) -> Result<Due, Stop>
        requires sections { AreSections self.old.source.items self.old.sections }
        requires left { IsTerm self.old.source.items left }
        requires right { IsTerm self.old.source.items right }
        requires token { IsToken self.old.source.items token }
        ensures moves { Completes (Role.Right left) right self.old token result self.new }
        ensures same { self.new.source ≡ self.old.source }
    {
        let rule = Rule {
            left,
            right,
            conditions: SmallVec::new(self.alloc),
        };
        match token {
            LexemeKind::If => {
                self.begin(Role::ConditionLeft(rule));
                Ok(Due::AtTerm)
            }
            _ => {
                self.sections.rules.push(rule)?;
                self.between(Some(Part::Rules), token)
            }
        }
    }

    /// After the left term of a condition: takes `-><-` or `->/<-`.
    fn after_condition_left(
        &mut self,
        rule: Rule,
        left: Term,
        token: LexemeKind,
    ) -> Result<Due, Stop>
        requires sections { AreSections self.old.source.items self.old.sections }
        requires rule { IsRule self.old.source.items rule }
        requires left { IsTerm self.old.source.items left }
        ensures moves { Completes (Role.ConditionLeft rule) left self.old token result self.new }
        ensures same { self.new.source ≡ self.old.source }
    {
        match token {
            LexemeKind::Equal => {
                self.begin(Role::ConditionRight(rule, left, true));
                Ok(Due::AtTerm)
            }
            LexemeKind::Unequal => {
                self.begin(Role::ConditionRight(rule, left, false));
                Ok(Due::AtTerm)
            }
            _ => Err(Stop::Refused),
        }
    }

    /// After a whole condition: takes `and-if`, or a token that can follow a rule.
    fn after_condition(
        &mut self,
        mut rule: Rule,
        condition: Condition,
        token: LexemeKind,
    ) -> Result<Due, Stop>
        requires sections { AreSections self.old.source.items self.old.sections }
        requires rule { IsRule self.old.source.items rule }
        requires condition { IsCondition self.old.source.items condition }
        requires token { IsToken self.old.source.items token }
        ensures moves { Completes (Role.ConditionRight rule condition.left condition.equal)
            condition.right self.old token result self.new }
        ensures same { self.new.source ≡ self.old.source }
    {
        rule.conditions.push(condition)?;
        match token {
            LexemeKind::AndIf => {
                self.begin(Role::ConditionLeft(rule));
                Ok(Due::AtTerm)
            }
            _ => {
                self.sections.rules.push(rule)?;
                self.between(Some(Part::Rules), token)
            }
        }
    }
}
