//! The descriptions of declarations, by their words.

ghost use Rattle.std.specs.Prelude.{
  ◌≡◌,
  ◌++◌,
  ◌∷◌,
  [],
  All,
  IfOk,
  List,
  ℕ,
  None,
  OnOk,
  bytes_eq,
  codes,
  decimal,
  flat_map,
  is_some,
  map,
  option_map,
};
ghost use Rattle.std.specs.Cmp.{on_per, on_equiv, partial_equiv_from_equiv};
ghost use Rattle.std.specs.Cmp.Lexicographic.{bytes_decides, nat_list_eq_equiv};
ghost use Rattle.std.proofs.Common.{ap};
ghost use Rattle.rec_syntax.specs.Parts.{
  IsDeclaration,
  IsGroup,
  Within,
  declaration_of,
  group_of,
  words_of,
};
ghost use Rattle.rec_syntax.specs.Syntax as tree;
ghost use Rattle.rec_syntax.specs.Syntax.{Spec};
ghost use Rattle.rec_uses.specs.Inner.Cursors.{IsCursor};
ghost use Rattle.rec_uses.specs.Inner.Tables.{
  AreTables,
  Holds,
  IsGiven,
  as_declared,
  given_first,
  text_in,
};
ghost use Rattle.rec_uses.specs.Inner.Values.{as_word};
ghost use Rattle.rec_uses.specs.Lines.{declared_at, declared_text, kind_text, symbol_type};
ghost use Rattle.rec_uses.specs.Spots.{spot_of};
ghost use Rattle.rec_uses.specs.Uses.{
  Declared,
  Sort,
  Variable,
  declared_in,
  first_named,
  group_declared,
};

use crate::spots::{Cursor, Spot};
use crate::uses::Role;
use crate::words::{Word, word_at};
use indexmap::IndexMap;
use itoa::Buffer;
use rec_syntax::{Declaration, Group, Span, Syntax};
use std::alloc::{AllocError, Global};
use std::hash::{Hash, Hasher};

/// A word as a hash key. Its bytes are hashed in one call.
#[derive(Clone, Copy, Drop)]
pub struct Key<'a> {
    bytes: &'a [u8],
}

impl PartialEq for Key<'_> {
    ghost eq = { λ x y. bytes_eq x.bytes.now y.bytes.now };

    ghost laws = { on_per (λ k. k.bytes.now) (partial_equiv_from_equiv nat_list_eq_equiv) };

    fn eq(&self, other: &Self) -> bool {
        self.bytes == other.bytes
    }
}

impl Eq for Key<'_> {
    ghost laws = { on_equiv (λ k. k.bytes.now) nat_list_eq_equiv };
}

impl Hash for Key<'_> {
    ghost hash_input = { λ k. k.bytes.now ∷ [] };

    ghost respects_eq = { λ x y same.
        ap (λ bytes. bytes ∷ []) ((bytes_decides x.bytes.now y.bytes.now).0 same) };

    fn hash<H: Hasher>(&self, state: &mut H) {
        state.write(self.bytes);
    }
}

/// The text of the first declaration of each word.
#[derive(Drop)]
pub struct Texts<'a> {
    by_name: IndexMap<Key<'a>, Vec<u8>>,
}

impl<'a> Texts<'a> {
    /// Returns no texts.
    fn new(alloc: Global) -> Self
        ensures { (text : List ℕ) → Holds text result [] }
    {
        Texts {
            by_name: IndexMap::new(alloc),
        }
    }

    /// Returns the text of a word, if it is declared.
    pub(crate) fn text(&self, name: &'a [u8]) -> Option<&[u8]>
        ensures { option_map (λ text. text.now) result ≡ text_in self.now name.now }
    {
        match self.by_name.get(&Key { bytes: name }) {
            Some(text) => Some(text.as_slice()),
            None => None,
        }
    }

    /// Returns whether a word has a text.
    fn has(&self, name: &'a [u8]) -> bool
        ensures { result ≡ is_some (text_in self.now name.now) }
    {
        self.text(name).is_some()
    }

    /// Gives a word this text, unless it has one.
    fn note(&mut self, name: &'a [u8], text: Vec<u8>) -> Result<(), AllocError>
        ensures { OnOk result ((other : List ℕ) → text_in self.new other
            ≡ given_first (text_in self.old) name.entry.now text.items other) }
    {
        if self.has(name) {
            Ok(())
        } else {
            self.give(name, text)
        }
    }

    /// Gives a word this text.
    fn give(&mut self, name: &'a [u8], text: Vec<u8>) -> Result<(), AllocError>
        ensures { OnOk result (IsGiven self.old self.new name.entry.now text.items) }
    {
        self.by_name.insert(Key { bytes: name }, text)?;
        Ok(())
    }
}

/// Appends a text and a number.
fn add_numbered(text: &mut Vec<u8>, front: &[u8], n: u64) -> Result<(), AllocError>
    ensures { OnOk result (text.new.items ≡ text.old.items ++ (front.now ++ decimal n)) }
{
    text.extend_from_slice(front)?;
    text.extend_from_slice(Buffer::new().format(n).as_bytes())
}

/// Returns the first part of a declaration's text: its kind, its word and its location.
fn declared_at(
    alloc: Global,
    kind: &[u8],
    word: Word<'_>,
    spot: Spot,
) -> Result<Vec<u8>, AllocError>
    ensures { IfOk result (λ text. text.items
        ≡ declared_at kind.now (as_word word.entry).bytes spot) }
{
    let mut text = Vec::new(alloc);
    text.extend_from_slice(kind)?;
    text.extend_from_slice(word.bytes)?;
    add_numbered(&mut text, b": ", spot.line)?;
    add_numbered(&mut text, b":", spot.column)?;
    Ok(text)
}

/// Appends sorts, each with a space after it.
fn add_sorts(syntax: &Syntax, sorts: &[Span], text: &mut Vec<u8>) -> Result<(), AllocError>
    requires { All (Within syntax.now.source) sorts.now }
    ensures { OnOk result (text.new.items ≡ text.old.items
        ++ flat_map (λ s. s.bytes ++ codes " ") (words_of syntax.now.source sorts.now)) }
{
    for sort in sorts {
        text.extend_from_slice(syntax.word(*sort))?;
        text.push(b' ')?;
    }
    Ok(())
}

/// Appends the sorts of a symbol.
fn add_type(
    syntax: &Syntax,
    declaration: &Declaration,
    text: &mut Vec<u8>,
) -> Result<(), AllocError>
    requires { IsDeclaration syntax.now.source declaration.now }
    ensures { OnOk result (text.new.items ≡ text.old.items
        ++ (codes ": " ++ symbol_type (declaration_of syntax.now.source declaration.now))) }
{
    text.extend_from_slice(b": ")?;
    add_sorts(syntax, declaration.arguments.as_slice(), text)?;
    text.extend_from_slice(b"-> ")?;
    text.extend_from_slice(syntax.word(declaration.sort))
}

/// The section in which a symbol is declared.
#[derive(Clone, Copy, Drop)]
pub enum Section {
    Constructors,
    Operators,
}

impl Section {
    /// Returns the kind of its symbols, with a space after it.
    fn kind(self) -> &'static [u8]
        ensures { (d : tree.Declaration) → result.now ≡ kind_text (as_declared self d) }
    {
        match self {
            Section::Constructors => b"constructor ",
            Section::Operators => b"operator ",
        }
    }
}

/// Returns the text of a sort.
fn sort_text(alloc: Global, word: Word<'_>, spot: Spot) -> Result<Vec<u8>, AllocError>
    ensures { IfOk result (λ text. (source : List ℕ)
        → spot ≡ spot_of source word.entry.at
        → text.items ≡ declared_text source (Sort (as_word word.entry))) }
{
    let mut text = declared_at(alloc, b"sort ", word, spot)?;
    text.push(b'\n')?;
    Ok(text)
}

/// Returns the text of a symbol.
fn symbol_text(
    alloc: Global,
    syntax: &Syntax,
    section: Section,
    declaration: &Declaration,
    spot: Spot,
) -> Result<Vec<u8>, AllocError>
    requires sound { IsDeclaration syntax.now.source declaration.now }
    requires spot { spot ≡ spot_of syntax.now.source declaration.now.name.from }
    ensures { IfOk result (λ text. text.items ≡ declared_text syntax.now.source
        (as_declared section (declaration_of syntax.now.source declaration.now))) }
{
    let word = word_at(syntax, declaration.name);
    let mut text = declared_at(alloc, section.kind(), word, spot)?;
    add_type(syntax, declaration, &mut text)?;
    text.push(b'\n')?;
    Ok(text)
}

/// Returns the text of a variable of this sort.
fn variable_text(
    alloc: Global,
    word: Word<'_>,
    sort: Word<'_>,
    spot: Spot,
) -> Result<Vec<u8>, AllocError>
    ensures { IfOk result (λ text. (source : List ℕ)
        → spot ≡ spot_of source word.entry.at
        → text.items ≡ declared_text source (Variable (as_word word.entry) (as_word sort.entry))) }
{
    let mut text = declared_at(alloc, b"variable ", word, spot)?;
    text.extend_from_slice(b": ")?;
    text.extend_from_slice(sort.bytes)?;
    text.push(b'\n')?;
    Ok(text)
}

/// Notes the declarations of sorts.
fn note_sorts<'a>(
    alloc: Global,
    syntax: &'a Syntax,
    texts: &mut Texts<'a>,
) -> Result<(), AllocError>
    ensures { OnOk result ((ds : List Declared) → Holds syntax.now.source texts.old ds
        → Holds syntax.now.source texts.new (ds ++ map Sort syntax.now.spec.sorts)) }
{
    let mut cursor = Cursor::new(syntax.source());
    for span in syntax.sorts() {
        let word = word_at(syntax, *span);
        let spot = cursor.spot(word.at);
        let text = sort_text(alloc, word, spot)?;
        texts.note(word.bytes, text)?;
    }
    Ok(())
}

/// Notes the declarations of symbols.
fn note_symbols<'a>(
    alloc: Global,
    syntax: &'a Syntax,
    section: Section,
    declarations: &[Declaration],
    texts: &mut Texts<'a>,
) -> Result<(), AllocError>
    requires { All (IsDeclaration syntax.now.source) declarations.now }
    ensures { OnOk result ((ds : List Declared) → Holds syntax.now.source texts.old ds
        → Holds syntax.now.source texts.new (ds ++ map (as_declared section)
        (map (declaration_of syntax.now.source) declarations.now))) }
{
    let mut cursor = Cursor::new(syntax.source());
    for declaration in declarations {
        let spot = cursor.spot(declaration.name.from);
        let text = symbol_text(alloc, syntax, section, declaration, spot)?;
        texts.note(syntax.word(declaration.name), text)?;
    }
    Ok(())
}

/// Notes a variable of this sort.
fn note_variable<'a>(
    alloc: Global,
    word: Word<'a>,
    sort: Word<'a>,
    spot: Spot,
    texts: &mut Texts<'a>,
) -> Result<(), AllocError>
    ensures { OnOk result ((source : List ℕ) (ds : List Declared)
        → spot ≡ spot_of source word.entry.at → Holds source texts.old ds
        → Holds source texts.new
        (ds ++ Variable (as_word word.entry) (as_word sort.entry) ∷ [])) }
{
    let text = variable_text(alloc, word, sort, spot)?;
    texts.note(word.bytes, text)?;
    Ok(())
}

/// Notes the variables of a group.
fn note_group<'a>(
    alloc: Global,
    syntax: &'a Syntax,
    group: &Group,
    cursor: &mut Cursor<'_>,
    texts: &mut Texts<'a>,
) -> Result<(), AllocError>
    requires sound { IsGroup syntax.now.source group.now }
    requires cursor { IsCursor syntax.now.source cursor.old }
    ensures cursor { IsCursor syntax.now.source cursor.new }
    ensures texts { OnOk result ((ds : List Declared) → Holds syntax.now.source texts.old ds
        → Holds syntax.now.source texts.new
        (ds ++ group_declared (group_of syntax.now.source group.now))) }
{
    let sort = word_at(syntax, group.sort);
    let first = word_at(syntax, group.first);
    let spot = cursor.spot(first.at);
    note_variable(alloc, first, sort, spot, texts)?;
    for span in group.others.as_slice() {
        let word = word_at(syntax, *span);
        let spot = cursor.spot(word.at);
        note_variable(alloc, word, sort, spot, texts)?;
    }
    Ok(())
}

/// Notes the declarations of variables.
fn note_groups<'a>(
    alloc: Global,
    syntax: &'a Syntax,
    texts: &mut Texts<'a>,
) -> Result<(), AllocError>
    ensures { OnOk result ((ds : List Declared) → Holds syntax.now.source texts.old ds
        → Holds syntax.now.source texts.new
        (ds ++ flat_map group_declared syntax.now.spec.variables)) }
{
    let mut cursor = Cursor::new(syntax.source());
    for group in syntax.groups() {
        note_group(alloc, syntax, group, &mut cursor, texts)?;
    }
    Ok(())
}

/// The texts of the declarations of a specification.
#[derive(Drop)]
pub struct Tables<'a> {
    sorts: Texts<'a>,
    names: Texts<'a>,
}

impl<'a> Tables<'a> {
    /// Returns the texts of all declarations.
    pub(crate) fn of(alloc: Global, syntax: &'a Syntax) -> Result<Self, AllocError>
        ensures { IfOk result (AreTables syntax.now.source syntax.now.spec) }
    {
        let mut sorts = Texts::new(alloc);
        note_sorts(alloc, syntax, &mut sorts)?;
        let mut names = Texts::new(alloc);
        note_symbols(
            alloc,
            syntax,
            Section::Constructors,
            syntax.constructors(),
            &mut names,
        )?;
        note_symbols(
            alloc,
            syntax,
            Section::Operators,
            syntax.operators(),
            &mut names,
        )?;
        note_groups(alloc, syntax, &mut names)?;
        Ok(Tables { sorts, names })
    }

    /// Returns the text of the declaration that a word names, if it is declared.
    pub(crate) fn text(&self, role: Role, name: &'a [u8]) -> Option<&[u8]>
        ensures { (text : List ℕ) (y : Spec) → AreTables text y self.now
            → option_map (λ t. t.now) result
            ≡ option_map (declared_text text) (first_named (declared_in y role) name.now) }
    {
        match role {
            Role::Sort => self.sorts.text(name),
            Role::Name => self.names.text(name),
        }
    }
}
