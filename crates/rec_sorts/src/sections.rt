//! The rules and EVAL terms of a specification: roots, sides and variables.

ghost use Rattle.std.specs.Prelude.{◌≡◌, All, IfOk, OnOk, false, map};
ghost use Rattle.rec_syntax.specs.Parts.{IsTerm, IsRule, IsCondition, term_of, condition_of};
ghost use Rattle.rec_syntax.specs.Parts.{rule_of};
ghost use Rattle.rec_sorts.specs.Numbering.{Pairwise};
ghost use Rattle.rec_sorts.specs.Reading.{binds_variable, is_unbound, unbound_among};

use crate::bound::Bound;
use crate::letters::{Letter, LetterCondition, LetterRule, Meaning};
use crate::places::{TermPlaces, earlier_place, place_where};
use crate::scope::Scope;
use crate::terms::{Placed, Room, bare_letters};
use rec_syntax::{Condition, Rule, Syntax, Term};
use std::alloc::{AllocError, Global};

/// Rules or terms in postfix form, and the least offsets at which they violate rules.
#[derive(Drop)]
struct Read<T> {
    letters: T,
    places: TermPlaces,
}

/// All rules and EVAL terms in postfix form, and the least offsets at which they violate rules.
#[derive(Drop)]
pub struct Sections {
    pub rules: Vec<LetterRule>,
    pub terms: Vec<Vec<Letter>>,
    pub places: TermPlaces,
}

/// Returns the least offset of a variable that is not bound.
fn unbound_place(letters: &[Placed], bound: &Bound) -> Option<u32>
    ensures { result ≡ unbound_among (binds_variable bound.now.letters.now) letters.now }
{
    let mut least = None;
    for placed in letters {
        least = earlier_place(least, place_where(bound.lacks(placed.meaning), placed.at));
    }
    least
}

/// Returns whether a name is a variable.
fn is_variable(meaning: Option<Meaning>) -> bool
    ensures { result ≡ is_unbound (λ _. false) meaning }
{
    matches!(meaning, Some(Meaning::Variable(_)))
}

/// Returns the least offset of a variable.
fn first_variable(letters: &[Placed]) -> Option<u32>
    ensures { result ≡ unbound_among (λ _. false) letters.now }
{
    let mut least = None;
    for placed in letters {
        least = earlier_place(least, place_where(is_variable(placed.meaning), placed.at));
    }
    least
}

impl Scope<'_> {
    ghost use Rattle.rec_sorts.specs.Reading.{ill_headed_at, unlike_at, condition_places};
    ghost use Rattle.rec_sorts.specs.Reading.{conditions_places, rule_places, rules_places};
    ghost use Rattle.rec_sorts.specs.Reading.{open_term_places, open_terms_places, letters_of};
    ghost use Rattle.rec_sorts.specs.Reading.{term_places, bound_places};
    ghost use Rattle.rec_sorts.specs.Reading.{SpellsTerm, SpellsCondition, SpellsRule};
    ghost use Rattle.rec_sorts.specs.Letters.{bare};
    ghost use Rattle.rec_sorts.specs.Least.{joined};

    /// Returns the offset of a term's root if it is not an operator.
    fn ill_headed_place(&self, letters: &[Placed]) -> Option<u32>
        ensures { result ≡ ill_headed_at self.now letters.now }
    {
        let head = letters.last()?;
        place_where(!self.is_operator(head.meaning), head.at)
    }

    /// Returns the offset of the left one of two terms if their sorts differ.
    fn unlike_place(&self, left: &[Placed], right: &[Placed]) -> Option<u32>
        ensures { result ≡ unlike_at self.now left.now right.now }
    {
        let left = left.last()?;
        let right = right.last()?;
        let alike = self.sort(left.meaning) == self.sort(right.meaning);
        place_where(!alike, left.at)
    }

    /// Reads the terms of a condition into `room`, and returns the offsets at which the condition
    /// violates rules. `bound` has the variables of the rule's left-hand side.
    #[inline]
    fn condition_terms(
        &self,
        condition: &Condition,
        bound: &Bound,
        room: &mut Room,
    ) -> Result<TermPlaces, AllocError>
        requires { IsCondition self.now.source.now condition.now }
        ensures left { OnOk result (room.new.left.items
            ≡ letters_of self.now (term_of self.now.source.now condition.now.left)) }
        ensures right { OnOk result (room.new.right.items
            ≡ letters_of self.now (term_of self.now.source.now condition.now.right)) }
        ensures places { IfOk result (λ p. p ≡ condition_places self.now
            (binds_variable bound.now.letters.now)
            (condition_of self.now.source.now condition.now)) }
    {
        let left = self.term(&condition.left, &mut room.left, &mut room.heads)?;
        let right = self.term(&condition.right, &mut room.right, &mut room.heads)?;
        let own = TermPlaces {
            unlike: self.unlike_place(&room.left, &room.right),
            unbound: earlier_place(
                unbound_place(&room.left, bound),
                unbound_place(&room.right, bound),
            ),
            ..TermPlaces::NONE
        };
        Ok(left.join(right).join(own))
    }

    /// Reads a condition of a rule whose left-hand side has the variables `bound`.
    fn condition(
        &self,
        alloc: Global,
        condition: &Condition,
        bound: &Bound,
        room: &mut Room,
    ) -> Result<Read<LetterCondition>, AllocError>
        requires { IsCondition self.now.source.now condition.now }
        ensures letters { IfOk result (λ r.
            SpellsCondition self.now r.letters (condition_of self.now.source.now condition.now)) }
        ensures places { IfOk result (λ r. r.places ≡ condition_places self.now
            (binds_variable bound.now.letters.now)
            (condition_of self.now.source.now condition.now)) }
    {
        let places = self.condition_terms(condition, bound, room)?;
        let left = bare_letters(alloc, &room.left)?;
        let right = bare_letters(alloc, &room.right)?;
        Ok(Read {
            letters: LetterCondition {
                left,
                right,
                equal: condition.equal,
            },
            places,
        })
    }

    /// Reads the conditions of a rule whose left-hand side has the variables `bound`.
    fn conditions(
        &self,
        alloc: Global,
        conditions: &[Condition],
        bound: &Bound,
        room: &mut Room,
    ) -> Result<Read<Vec<LetterCondition>>, AllocError>
        requires { All (IsCondition self.now.source.now) conditions.now }
        ensures letters { IfOk result (λ r. Pairwise (SpellsCondition self.now) r.letters.items
            (map (condition_of self.now.source.now) conditions.now)) }
        ensures places { IfOk result (λ r. r.places ≡ conditions_places self.now
            (binds_variable bound.now.letters.now)
            (map (condition_of self.now.source.now) conditions.now)) }
    {
        let mut letters = Vec::new(alloc);
        let mut places = TermPlaces::NONE;
        for condition in conditions {
            let read = self.condition(alloc, condition, bound, room)?;
            letters.push(read.letters)?;
            places = places.join(read.places);
        }
        Ok(Read { letters, places })
    }

    /// Reads the sides of a rule: the left-hand side into `left`, the right-hand side into `room`.
    /// Returns the offsets at which each side on its own violates rules.
    #[inline]
    fn sides(
        &self,
        rule: &Rule,
        left: &mut Vec<Placed>,
        room: &mut Room,
    ) -> Result<TermPlaces, AllocError>
        requires { IsRule self.now.source.now rule.now }
        ensures left { OnOk result (left.new.items
            ≡ letters_of self.now (rule_of self.now.source.now rule.now).left) }
        ensures right { OnOk result (room.new.right.items
            ≡ letters_of self.now (rule_of self.now.source.now rule.now).right) }
        ensures places { IfOk result (λ p. p ≡ joined
            (term_places self.now (rule_of self.now.source.now rule.now).left)
            (term_places self.now (rule_of self.now.source.now rule.now).right)) }
    {
        let of_left = self.term(&rule.left, left, &mut room.heads)?;
        let of_right = self.term(&rule.right, &mut room.right, &mut room.heads)?;
        Ok(of_left.join(of_right))
    }

    /// Completes a rule whose sides were read. Its offsets are those of violations that no side
    /// causes on its own.
    #[inline]
    fn bound_rule(
        &self,
        alloc: Global,
        rule: &Rule,
        bound: &Bound,
        room: &mut Room,
    ) -> Result<Read<LetterRule>, AllocError>
        requires { IsRule self.now.source.now rule.now }
        ensures left { IfOk result (λ r. r.letters.left.items ≡ bare bound.now.letters.now) }
        ensures right { IfOk result (λ r. r.letters.right.items ≡ bare room.old.right.items) }
        ensures conditions { IfOk result (λ r. Pairwise (SpellsCondition self.now)
            r.letters.conditions.items (rule_of self.now.source.now rule.now).conditions) }
        ensures places { IfOk result (λ r. r.places ≡ bound_places self.now bound.now.letters.now
            room.old.right.items (rule_of self.now.source.now rule.now).conditions) }
    {
        let own = TermPlaces {
            ill_headed: self.ill_headed_place(bound.letters),
            unlike: self.unlike_place(bound.letters, &room.right),
            unbound: unbound_place(&room.right, bound),
            ..TermPlaces::NONE
        };
        let left = bare_letters(alloc, bound.letters)?;
        let right = bare_letters(alloc, &room.right)?;
        let conditions = self.conditions(alloc, &rule.conditions, bound, room)?;
        Ok(Read {
            letters: LetterRule {
                left,
                right,
                conditions: conditions.letters,
            },
            places: own.join(conditions.places),
        })
    }

    /// Reads a rule. The items of its left-hand side replace the contents of `left`.
    fn rule(
        &self,
        alloc: Global,
        rule: &Rule,
        left: &mut Vec<Placed>,
        room: &mut Room,
    ) -> Result<Read<LetterRule>, AllocError>
        requires { IsRule self.now.source.now rule.now }
        ensures letters { IfOk result
            (λ r. SpellsRule self.now r.letters (rule_of self.now.source.now rule.now)) }
        ensures places { IfOk result
            (λ r. r.places ≡ rule_places self.now (rule_of self.now.source.now rule.now)) }
    {
        let of_sides = self.sides(rule, left, room)?;
        let bound = Bound::by(alloc, left)?;
        let read = self.bound_rule(alloc, rule, &bound, room)?;
        Ok(Read {
            letters: read.letters,
            places: of_sides.join(read.places),
        })
    }

    /// Reads the rules.
    fn rules(
        &self,
        alloc: Global,
        rules: &[Rule],
        room: &mut Room,
    ) -> Result<Read<Vec<LetterRule>>, AllocError>
        requires { All (IsRule self.now.source.now) rules.now }
        ensures letters { IfOk result (λ r. Pairwise (SpellsRule self.now) r.letters.items
            (map (rule_of self.now.source.now) rules.now)) }
        ensures places { IfOk result
            (λ r. r.places ≡ rules_places self.now (map (rule_of self.now.source.now) rules.now)) }
    {
        let mut letters = Vec::with_capacity(alloc, rules.len())?;
        let mut places = TermPlaces::NONE;
        let mut left = Vec::new(alloc);
        for rule in rules {
            let read = self.rule(alloc, rule, &mut left, room)?;
            letters.push(read.letters)?;
            places = places.join(read.places);
        }
        Ok(Read { letters, places })
    }

    /// Reads an EVAL term.
    #[inline]
    fn open_term(
        &self,
        alloc: Global,
        term: &Term,
        room: &mut Room,
    ) -> Result<Read<Vec<Letter>>, AllocError>
        requires { IsTerm self.now.source.now term.now }
        ensures letters { IfOk result
            (λ r. SpellsTerm self.now r.letters.items (term_of self.now.source.now term.now)) }
        ensures places { IfOk result
            (λ r. r.places ≡ open_term_places self.now (term_of self.now.source.now term.now)) }
    {
        let read = self.term(term, &mut room.left, &mut room.heads)?;
        let own = TermPlaces {
            free: first_variable(&room.left),
            ..TermPlaces::NONE
        };
        let letters = bare_letters(alloc, &room.left)?;
        Ok(Read {
            letters,
            places: read.join(own),
        })
    }

    /// Reads the EVAL terms.
    fn terms(
        &self,
        alloc: Global,
        terms: &[Term],
        room: &mut Room,
    ) -> Result<Read<Vec<Vec<Letter>>>, AllocError>
        requires { All (IsTerm self.now.source.now) terms.now }
        ensures letters { IfOk result (λ r. Pairwise (λ v t. SpellsTerm self.now v.items t)
            r.letters.items (map (term_of self.now.source.now) terms.now)) }
        ensures places { IfOk result (λ r.
            r.places ≡ open_terms_places self.now (map (term_of self.now.source.now) terms.now)) }
    {
        let mut letters = Vec::with_capacity(alloc, terms.len())?;
        let mut places = TermPlaces::NONE;
        for term in terms {
            let read = self.open_term(alloc, term, room)?;
            letters.push(read.letters)?;
            places = places.join(read.places);
        }
        Ok(Read { letters, places })
    }

    /// Reads the rules and EVAL terms of a specification with these declarations. The vectors of
    /// the term that is being read are reused; results are copied into exactly as much room as they
    /// take.
    pub fn sections(&self, alloc: Global, syntax: &Syntax) -> Result<Sections, AllocError>
        requires { self.now.source.now ≡ syntax.now.source }
        ensures rules { IfOk result
            (λ r. Pairwise (SpellsRule self.now) r.rules.items syntax.now.spec.rules) }
        ensures terms { IfOk result (λ r. Pairwise (λ v t. SpellsTerm self.now v.items t)
            r.terms.items syntax.now.spec.terms) }
        ensures places { IfOk result (λ r. r.places ≡ joined
            (rules_places self.now syntax.now.spec.rules)
            (open_terms_places self.now syntax.now.spec.terms)) }
    {
        let mut room = Room::new(alloc);
        let rules = self.rules(alloc, syntax.rules(), &mut room)?;
        let terms = self.terms(alloc, syntax.terms(), &mut room)?;
        Ok(Sections {
            rules: rules.letters,
            terms: terms.letters,
            places: rules.places.join(terms.places),
        })
    }
}
