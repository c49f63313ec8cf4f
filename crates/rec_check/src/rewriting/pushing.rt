//! Diagnostics of unreachable rules and of rules that cannot match.

ghost use Rattle.std.specs.Prelude.{◌≡◌, ◌++◌, ◌<◌, [], IfSome, OnOk, Option, get_or, length, map};
ghost use Rattle.rec_syntax.specs.Syntax as syntax;
ghost use Rattle.rec_syntax.specs.Syntax.{arguments, head};
ghost use Rattle.rec_syntax.specs.Tokens as tokens;
ghost use Rattle.rec_sorts.specs.Numbering.{AreLetters};
ghost use Rattle.rec_check.specs.Findings.{as_diagnostics, found_by, never_matching_in, never_tried};
ghost use Rattle.rec_check.specs.Inner.Inside.{never_matching_inside};
ghost use Rattle.rec_check.specs.Named.{as_word, as_words};
ghost use Rattle.rec_check.specs.Inner.Rewriters.{IsRewriter};
ghost use Rattle.rec_check.specs.Rewriting.{IsFirstWord, postorder_all};
ghost use Rattle.rec_check.specs.Inner.Trials.{AreSizes};

use crate::broken::head_of;
use crate::finding::{Diagnostic, Kind};
use crate::located::Word;
use crate::matching::{Terms, Values, sizes};
use crate::rewriting::{Rewriter, inner_words, letters};
use std::alloc::{AllocError, Global};

impl<'a> Rewriter<'a> {
    /// Appends a diagnostic at a word, if there is a rule that rewrites the term that the word
    /// begins.
    fn push(
        &self,
        kind: Kind,
        word: Word<'_>,
        rule: Option<usize>,
        found: &mut Vec<Diagnostic>,
    ) -> Result<(), AllocError>
        requires rules { IsRewriter self.now }
        requires within { IfSome rule (λ i. i < length self.now.checked.now.spec.rules) }
        ensures { OnOk result ((o : Option tokens.Word)
            → IsFirstWord self.now.checked.now.spec rule o
            → as_diagnostics found.new.items ≡ as_diagnostics found.old.items
            ++ found_by kind self.now.checked.now.source (as_word word.entry) o) }
    {
        if let Some(rule) = rule {
            let shown = self.spots[rule].text(*found.allocator())?;
            found.push(Diagnostic {
                at: word.at,
                end: word.at + word.bytes.len(),
                kind,
                shown,
            })?;
        }
        Ok(())
    }

    /// Appends the unreachable rules.
    pub(crate) fn push_never_tried(
        &self,
        alloc: Global,
        values: &mut Values<'a>,
        found: &mut Vec<Diagnostic>,
    ) -> Result<(), AllocError>
        requires { IsRewriter self.now }
        ensures { OnOk result (as_diagnostics found.new.items ≡ as_diagnostics found.old.items
            ++ never_tried self.now.checked.now.source self.now.checked.now.spec []
            self.now.checked.now.spec.rules) }
    {
        let syntax = self.checked.syntax();
        for (i, rule) in syntax.rules().iter().enumerate() {
            let word = head_of(syntax, &rule.left);
            let by = self.rewriting_left(alloc, i, values)?;
            self.push(Kind::NeverTried, word, by, found)?;
        }
        Ok(())
    }

    /// Appends the arguments inside a rule's left-hand side that are rewritten first. `words` are
    /// their first words.
    fn push_inner_words(
        &self,
        rule: usize,
        words: &[Word<'_>],
        left: Terms<'a, '_>,
        values: &mut Values<'a>,
        found: &mut Vec<Diagnostic>,
    ) -> Result<(), AllocError>
        requires rules { IsRewriter self.now }
        requires letters { (r : _) → AreLetters self.now.checked.now.spec left.letters.now
            (get_or self.now.checked.now.spec.rules rule r).left }
        requires sizes { AreSizes left.letters.now left.sizes.now }
        requires words { (r : _) → as_words words.now ≡ map head
            (postorder_all (arguments (get_or self.now.checked.now.spec.rules rule r).left)) }
        ensures { (r : _) → OnOk result (as_diagnostics found.new.items
            ≡ as_diagnostics found.old.items
            ++ never_matching_in self.now.checked.now.source self.now.checked.now.spec
            (postorder_all (arguments (get_or self.now.checked.now.spec.rules rule r).left))) }
    {
        for (i, word) in words.iter().enumerate() {
            let (terms, _others) = left.split_at(i + 1);
            let by = self.rewriting(self.spots.len(), terms, values)?;
            self.push(Kind::NeverMatches, *word, by, found)?;
        }
        Ok(())
    }

    /// Appends the arguments inside a rule's left-hand side that are rewritten first.
    fn push_inner(
        &self,
        alloc: Global,
        rule: usize,
        values: &mut Values<'a>,
        found: &mut Vec<Diagnostic>,
    ) -> Result<(), AllocError>
        requires rules { IsRewriter self.now }
        requires rule { rule < length self.now.checked.now.spec.rules }
        ensures { (r : _) → OnOk result (as_diagnostics found.new.items
            ≡ as_diagnostics found.old.items
            ++ never_matching_in self.now.checked.now.source self.now.checked.now.spec
            (postorder_all (arguments (get_or self.now.checked.now.spec.rules rule r).left))) }
    {
        let words = inner_words(alloc, self.checked.syntax(), rule)?;
        let letters = &letters(self.checked, rule).left;
        let sizes = sizes(alloc, letters)?;
        let left = Terms {
            letters,
            sizes: &sizes,
        };
        self.push_inner_words(rule, &words, left, values, found)
    }

    /// Appends the arguments inside all left-hand sides that are rewritten first.
    pub(crate) fn push_never_matching(
        &self,
        alloc: Global,
        values: &mut Values<'a>,
        found: &mut Vec<Diagnostic>,
    ) -> Result<(), AllocError>
        requires { IsRewriter self.now }
        ensures { OnOk result (as_diagnostics found.new.items ≡ as_diagnostics found.old.items
            ++ never_matching_inside self.now.checked.now.source self.now.checked.now.spec) }
    {
        for rule in 0..self.spots.len() {
            self.push_inner(alloc, rule, values, found)?;
        }
        Ok(())
    }
}
