//! A specification after reading, with its text.

ghost use Rattle.std.specs.Prelude.{◌≡◌, ◌≤◌, length, map, All};
ghost use Rattle.rec_syntax.specs.Length.{longest};
ghost use Rattle.rec_syntax.specs.Lexemes.{word_of, Within};
ghost use Rattle.rec_syntax.specs.Parts.{declaration_of, group_of, rule_of, term_of, spec_of};
ghost use Rattle.rec_syntax.specs.Parts.{AreSections, IsDeclaration, IsGroup, IsRule, IsTerm};

use crate::lexer::Span;
use crate::parts::{Declaration, Group, Rule, Sections, Term};
use std::marker::Model;

/// The largest length of a text, in bytes: 16 MiB.
pub const LONGEST: usize = 16_777_216;

/// A specification together with the text that spells it. Contracts see it as the bytes of the text
/// and the syntax tree (`Sourced`).
#[derive(Drop)]
pub struct Syntax {
    source: Vec<u8>,
    sections: Sections,
}

impl Model for Syntax {
    ghost use Rattle.rec_syntax.specs.Syntax.{Sourced};
    ghost use Rattle.rec_syntax.specs.Inner.TermCode.{sourced_code};

    ghost Value = { Sourced };

    ghost coded = { sourced_code };

    ghost use Rattle.rec_syntax.specs.Inner.SyntaxView.{sourced_of, IsSourced};

    ghost view = { sourced_of };

    ghost invariant = { IsSourced };
}

impl Syntax {
    /// Makes the specification with these sections of its text.
    pub(crate) fn new(source: Vec<u8>, sections: Sections) -> Self
        requires short { length source.items ≤ longest }
        requires sections { AreSections source.items sections }
        ensures source { result.source ≡ source.items }
        ensures spec { result.spec ≡ spec_of source.items sections }
    {
        Syntax { source, sections }
    }

    /// Returns the text.
    pub fn source(&self) -> &[u8]
        ensures text { result.now ≡ self.now.source }
        ensures short { length result.now ≤ longest }
    {
        self.source.as_slice()
    }

    /// Returns the bytes of a name. The span has to lie within the text, as each span of the parts
    /// does.
    pub fn word(&self, span: Span) -> &[u8]
        requires { Within self.now.source span }
        ensures { result.now ≡ (word_of self.now.source span).bytes }
    {
        &self.source[span.from..span.to]
    }

    /// Returns the name of the specification.
    pub fn name(&self) -> Span
        ensures name { word_of self.now.source result ≡ self.now.spec.name }
        ensures within { Within self.now.source result }
    {
        self.sections.name
    }

    /// Returns the declared sorts in the order of the text.
    pub fn sorts(&self) -> &[Span]
        ensures sorts { map (word_of self.now.source) result.now ≡ self.now.spec.sorts }
        ensures within { All (Within self.now.source) result.now }
    {
        &self.sections.sorts
    }

    /// Returns the declarations of constructors in the order of the text.
    pub fn constructors(&self) -> &[Declaration]
        ensures constructors { map (declaration_of self.now.source)
            result.now ≡ self.now.spec.constructors }
        ensures sound { All (IsDeclaration self.now.source) result.now }
    {
        &self.sections.constructors
    }

    /// Returns the declarations of operators in the order of the text.
    pub fn operators(&self) -> &[Declaration]
        ensures operators { map (declaration_of self.now.source)
            result.now ≡ self.now.spec.operators }
        ensures sound { All (IsDeclaration self.now.source) result.now }
    {
        &self.sections.operators
    }

    /// Returns the groups of variables in the order of the text.
    pub fn groups(&self) -> &[Group]
        ensures groups { map (group_of self.now.source) result.now ≡ self.now.spec.variables }
        ensures sound { All (IsGroup self.now.source) result.now }
    {
        &self.sections.groups
    }

    /// Returns the rules in the order of the text.
    pub fn rules(&self) -> &[Rule]
        ensures rules { map (rule_of self.now.source) result.now ≡ self.now.spec.rules }
        ensures sound { All (IsRule self.now.source) result.now }
    {
        &self.sections.rules
    }

    /// Returns the EVAL terms in the order of the text.
    pub fn terms(&self) -> &[Term]
        ensures terms { map (term_of self.now.source) result.now ≡ self.now.spec.terms }
        ensures sound { All (IsTerm self.now.source) result.now }
    {
        &self.sections.terms
    }
}
