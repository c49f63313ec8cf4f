//! The reader: a state machine that takes one token at a time. `Due` says which tokens it can take
//! next; the sections that were read so far are in `Reader`.

ghost use Rattle.std.specs.Prelude.{◌≡◌, ◌<◌, ◌≤◌, ◌↔◌, [], length, IfOk, IfErr, IsErrOf};
ghost use Rattle.rec_syntax.specs.Grammar.{SpecText};
ghost use Rattle.rec_syntax.specs.Answer.{IsPlaced};
ghost use Rattle.rec_syntax.specs.Length.{longest};
ghost use Rattle.rec_syntax.specs.Lexemes.{IsToken};
ghost use Rattle.rec_syntax.specs.Inner.Machine.{start};
ghost use Rattle.rec_syntax.specs.Parts.{AreSections, spec_of};
ghost use Rattle.rec_syntax.specs.Inner.Reader.{state_of, IsState, IsAt, Steps};

mod expected;
mod items;
mod terms;

use crate::fault::SyntaxFault;
use crate::lexer::{LexemeKind, Part, Span, next};
use crate::parts::{Node, Rule, Sections, Term, Words};
use crate::spec::{LONGEST, Syntax};
pub use expected::expected_at_fault;
use smallvec::SmallVec;
use std::alloc::{AllocError, AllocFailed, Global};
use std::mem;

/// The kind of symbols that the open section declares.
#[derive(Clone, Copy, Drop)]
pub enum Symbols {
    Constructors,
    Operators,
}

/// The role of the term that is being read, with the parts of its rule that are read already.
#[derive(Drop)]
pub enum Role {
    Left,
    Right(Term),
    ConditionLeft(Rule),
    ConditionRight(Rule, Term, bool),
    InEval,
}

/// The control state of the reader: it determines the tokens that can come next.
#[derive(Clone, Copy, Drop)]
pub enum Due {
    Start,
    Title,
    Between(Option<Part>),
    Named(Symbols, Span),
    Arguments(Symbols, Span),
    ResultSort(Symbols, Span),
    Grouped(Span),
    GroupSort(Span),
    AtTerm,
    Called(Span),
    First(Span),
    After,
    Ended,
    Done,
}

/// Why a token was not taken: the grammar has no such token here, or an allocation failed.
#[derive(Drop)]
pub enum Stop {
    Refused,
    Memory,
}

impl<T: Drop> From<AllocFailed<T>> for Stop {
    ghost use Rattle.rec_syntax.specs.declared.reader.Stop.TheVariants.{Memory};

    ghost from_gives = { λ _ e. e ≡ Memory };

    fn from(_e: AllocFailed<T>) -> Stop {
        Stop::Memory
    }
}

impl From<AllocError> for Stop {
    ghost use Rattle.rec_syntax.specs.declared.reader.Stop.TheVariants.{Memory};

    ghost from_gives = { λ _ e. e ≡ Memory };

    fn from(_e: AllocError) -> Stop {
        Stop::Memory
    }
}

/// An application whose closing parenthesis was not read yet, and the number of its arguments that
/// were read.
#[derive(Drop)]
pub struct Call {
    word: Span,
    count: usize,
}

/// The text, and everything that was read of it.
#[derive(Drop)]
pub struct Reader {
    alloc: Global,
    source: Vec<u8>,
    sections: Sections,
    /// the names of the declaration or group that is being read
    words: Words,
    role: Role,
    /// the open applications, and the nodes of the term that is being read; both are reused for
    /// each term
    calls: Vec<Call>,
    nodes: Vec<Node>,
}

impl Reader {
    /// Returns a reader before the first token.
    fn new(alloc: Global, source: Vec<u8>) -> Self
        ensures source { result.source ≡ source }
        ensures start { state_of source.items Due.Start result ≡ start }
        ensures state { IsState source.items Due.Start result }
    {
        Reader {
            alloc,
            source,
            sections: Sections::new(alloc),
            words: SmallVec::new(alloc),
            role: Role::Left,
            calls: Vec::new(alloc),
            nodes: Vec::new(alloc),
        }
    }

    /// Takes the next token and returns the next control state.
    fn step(&mut self, due: Due, token: LexemeKind) -> Result<Due, Stop>
        requires state { IsAt due self.old }
        requires token { IsToken self.old.source.items token }
        ensures moves { Steps due self.old token result self.new }
        ensures same { self.new.source ≡ self.old.source }
    {
        match due {
            Due::Start => match token {
                LexemeKind::RecSpec => Ok(Due::Title),
                _ => Err(Stop::Refused),
            },
            Due::Title => self.title(token),
            Due::Between(level) => self.between(level, token),
            Due::Named(symbols, name) => self.after_name(symbols, name, token),
            Due::Arguments(symbols, name) => self.arguments(symbols, name, token),
            Due::ResultSort(symbols, name) => self.result_sort(symbols, name, token),
            Due::Grouped(first) => self.group_words(first, token),
            Due::GroupSort(first) => self.group_sort(first, token),
            Due::AtTerm => self.at_term(token),
            Due::Called(word) => self.after_word(word, token),
            Due::First(word) => self.first(word, token),
            Due::After => self.after(token),
            Due::Ended => match token {
                LexemeKind::End => Ok(Due::Done),
                _ => Err(Stop::Refused),
            },
            Due::Done => Err(Stop::Refused),
        }
    }

    /// Moves the text and the sections out of the reader, as a specification.
    fn take_syntax(&mut self) -> Syntax
        requires short { length self.old.source.items ≤ longest }
        requires sections { AreSections self.old.source.items self.old.sections }
        ensures source { result.source ≡ self.old.source.items }
        ensures spec { result.spec ≡ spec_of self.old.source.items self.old.sections }
    {
        let source = mem::replace(&mut self.source, Vec::new(self.alloc));
        let sections = mem::replace(&mut self.sections, Sections::new(self.alloc));
        Syntax::new(source, sections)
    }

    /// Reads the whole text from its first token on. Returns the specification that it spells.
    fn read_text(&mut self) -> Result<Syntax, SyntaxFault>
        requires short { length self.old.source.items ≤ longest }
        requires start { state_of self.old.source.items Due.Start self.old ≡ start }
        requires state { IsAt Due.Start self.old }
        ensures source { IfOk result (λ s. s.source ≡ self.old.source.items) }
        ensures spelled { IfOk result (λ s. SpecText self.old.source.items s.spec) }
        ensures long { ¬ IsErrOf result SyntaxFault.Long }
        ensures place { IfErr result (IsPlaced self.old.source.items) }
    {
        let mut due = Due::Start;
        let mut from = 0;
        loop {
            let lexeme = next(&self.source, from);
            due = match self.step(due, lexeme.kind) {
                Ok(due) => due,
                Err(Stop::Memory) => return Err(SyntaxFault::Memory),
                Err(Stop::Refused) => {
                    return Err(SyntaxFault::Grammar {
                        at: lexeme.at as u32,
                    });
                }
            };
            if let LexemeKind::End = lexeme.kind {
                return Ok(self.take_syntax());
            }
            from = lexeme.to;
        }
    }
}

/// Returns the specification that the text spells. The text is not too long.
fn read(alloc: Global, source: Vec<u8>) -> Result<Syntax, SyntaxFault>
    requires { length source.items ≤ longest }
    ensures source { IfOk result (λ s. s.source ≡ source.items) }
    ensures spelled { IfOk result (λ s. SpecText source.items s.spec) }
    ensures long { ¬ IsErrOf result SyntaxFault.Long }
    ensures place { IfErr result (IsPlaced source.items) }
{
    Reader::new(alloc, source).read_text()
}

/// Returns the specification that the text spells. The result keeps the text, and no byte of it is
/// copied. Returns `Long` if the text has more than [`LONGEST`] bytes, `Grammar` with the offset of
/// the error if it is outside the grammar, `Memory` if an allocation failed. Linear in the length
/// of the text.
pub fn read_owned(alloc: Global, text: Vec<u8>) -> Result<Syntax, SyntaxFault>
    ensures source { IfOk result (λ s. s.source ≡ text.items) }
    ensures spelled { IfOk result (λ s. SpecText text.items s.spec) }
    ensures short { IfOk result (λ s. length text.items ≤ longest) }
    ensures long { IsErrOf result SyntaxFault.Long ↔ (longest < length text.items) }
    ensures place { IfErr result (IsPlaced text.items) }
{
    if text.len() > LONGEST {
        return Err(SyntaxFault::Long);
    }
    read(alloc, text)
}

/// Returns the specification that the bytes spell, which are copied. Returns `Long` if there are
/// more than [`LONGEST`] bytes, before memory is requested; `Grammar` with the offset of the error
/// if they are outside the grammar; `Memory` if an allocation failed. Linear in the length of the
/// text.
pub fn read_spec(alloc: Global, bytes: &[u8]) -> Result<Syntax, SyntaxFault>
    ensures source { IfOk result (λ s. s.source ≡ bytes.now) }
    ensures spelled { IfOk result (λ s. SpecText bytes.now s.spec) }
    ensures short { IfOk result (λ s. length bytes.now ≤ longest) }
    ensures long { IsErrOf result SyntaxFault.Long ↔ (longest < length bytes.now) }
    ensures place { IfErr result (IsPlaced bytes.now) }
{
    if bytes.len() > LONGEST {
        return Err(SyntaxFault::Long);
    }
    let source = Vec::from_slice(alloc, bytes).map_err(|_: AllocError| SyntaxFault::Memory)?;
    read(alloc, source)
}
