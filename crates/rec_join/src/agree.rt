//! Comparison of a specification with the specifications of its parts together.

ghost use Rattle.std.specs.Prelude.{◌≡◌, flat_map, map, true};
ghost use Rattle.rec_join.specs.Inner.Nodes.{specs_of};
ghost use Rattle.rec_join.specs.Join.{
  IsSameButPlaces,
  last_name,
  together,
  unplaced,
  unplaced_declaration,
  unplaced_rule,
  unplaced_term,
  unplaced_variables,
};

use crate::same::{same_declarations, same_groups, same_rules, same_terms, same_word, same_words};
use rec_syntax::Syntax;

/// Returns whether the sorts are those of the parts together.
fn sorts_agree(whole: &Syntax, parts: &[Syntax]) -> bool
    ensures { result ≡ true → map unplaced whole.now.spec.sorts
        ≡ map unplaced (flat_map (λ y. y.sorts) (specs_of parts.now)) }
{
    let all = whole.sorts();
    let mut from = 0;
    for part in parts {
        let own = part.sorts();
        if own.len() > all.len() - from {
            return false;
        }
        let to = from + own.len();
        if !same_words(whole, &all[from..to], part, own) {
            return false;
        }
        from = to;
    }
    from == all.len()
}

/// Returns whether the constructors are those of the parts together.
fn constructors_agree(whole: &Syntax, parts: &[Syntax]) -> bool
    ensures { result ≡ true → map unplaced_declaration whole.now.spec.constructors
        ≡ map unplaced_declaration (flat_map (λ y. y.constructors) (specs_of parts.now)) }
{
    let all = whole.constructors();
    let mut from = 0;
    for part in parts {
        let own = part.constructors();
        if own.len() > all.len() - from {
            return false;
        }
        let to = from + own.len();
        if !same_declarations(whole, &all[from..to], part, own) {
            return false;
        }
        from = to;
    }
    from == all.len()
}

/// Returns whether the operators are those of the parts together.
fn operators_agree(whole: &Syntax, parts: &[Syntax]) -> bool
    ensures { result ≡ true → map unplaced_declaration whole.now.spec.operators
        ≡ map unplaced_declaration (flat_map (λ y. y.operators) (specs_of parts.now)) }
{
    let all = whole.operators();
    let mut from = 0;
    for part in parts {
        let own = part.operators();
        if own.len() > all.len() - from {
            return false;
        }
        let to = from + own.len();
        if !same_declarations(whole, &all[from..to], part, own) {
            return false;
        }
        from = to;
    }
    from == all.len()
}

/// Returns whether the groups of variables are those of the parts together.
fn groups_agree(whole: &Syntax, parts: &[Syntax]) -> bool
    ensures { result ≡ true → map unplaced_variables whole.now.spec.variables
        ≡ map unplaced_variables (flat_map (λ y. y.variables) (specs_of parts.now)) }
{
    let all = whole.groups();
    let mut from = 0;
    for part in parts {
        let own = part.groups();
        if own.len() > all.len() - from {
            return false;
        }
        let to = from + own.len();
        if !same_groups(whole, &all[from..to], part, own) {
            return false;
        }
        from = to;
    }
    from == all.len()
}

/// Returns whether the rules are those of the parts together.
fn rules_agree(whole: &Syntax, parts: &[Syntax]) -> bool
    ensures { result ≡ true → map unplaced_rule whole.now.spec.rules
        ≡ map unplaced_rule (flat_map (λ y. y.rules) (specs_of parts.now)) }
{
    let all = whole.rules();
    let mut from = 0;
    for part in parts {
        let own = part.rules();
        if own.len() > all.len() - from {
            return false;
        }
        let to = from + own.len();
        if !same_rules(whole, &all[from..to], part, own) {
            return false;
        }
        from = to;
    }
    from == all.len()
}

/// Returns whether the EVAL terms are those of the parts together.
fn terms_agree(whole: &Syntax, parts: &[Syntax]) -> bool
    ensures { result ≡ true → map unplaced_term whole.now.spec.terms
        ≡ map unplaced_term (flat_map (λ y. y.terms) (specs_of parts.now)) }
{
    let all = whole.terms();
    let mut from = 0;
    for part in parts {
        let own = part.terms();
        if own.len() > all.len() - from {
            return false;
        }
        let to = from + own.len();
        if !same_terms(whole, &all[from..to], part, own) {
            return false;
        }
        from = to;
    }
    from == all.len()
}

/// Returns whether the name is that of the last part.
fn name_agrees(whole: &Syntax, parts: &[Syntax]) -> bool
    ensures { result ≡ true
        → unplaced whole.now.spec.name ≡ unplaced (last_name (specs_of parts.now)) }
{
    if parts.is_empty() {
        return false;
    }
    let last = &parts[parts.len() - 1];
    same_word(whole, whole.name(), last, last.name())
}

/// Returns whether a specification is that of its parts together, up to the offsets of names. Costs
/// one pass over both.
pub(crate) fn agrees(whole: &Syntax, parts: &[Syntax]) -> bool
    ensures { result ≡ true → IsSameButPlaces whole.now.spec (together (specs_of parts.now)) }
{
    name_agrees(whole, parts)
        && sorts_agree(whole, parts)
        && constructors_agree(whole, parts)
        && operators_agree(whole, parts)
        && groups_agree(whole, parts)
        && rules_agree(whole, parts)
        && terms_agree(whole, parts)
}
