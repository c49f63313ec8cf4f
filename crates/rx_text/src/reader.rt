//! The parser: a stack of open groups, and the nodes that were read.

ghost use Rattle.std.specs.Prelude.{◌≡◌, ◌+◌, ◌<◌, ◌≤◌, length, reverse, IfOk, MatchResult};
ghost use Rattle.rx_text.specs.Lexemes.{token_of, IsToken};
ghost use Rattle.rx_text.specs.Machine.{close, end_item};
ghost use Rattle.rx_text.specs.Nodes.{top, rest};
ghost use Rattle.rx_text.specs.Reader.{made_of, frame_of, held, under, frames_of, node_count};
ghost use Rattle.rx_text.specs.Reader.{IsStack, IsOpening, IsUnannotated, Moves, IsAt, Steps};
ghost use Rattle.rx_text.specs.Verdict.{longest};
ghost use Rattle.rx_text.specs.Answer.{AreRead, IsFault};

mod expected;

use crate::faults::TextFault;
use crate::lexer::{LexemeKind, next};
use crate::nodes::{Node, Word};
pub use expected::expected_at_fault;
use std::alloc::{AllocFailed, Global};

/// An open group: arguments, a list, a placeholder or annotations.
#[derive(Clone, Copy, Drop)]
pub enum Opening {
    Arguments(Word),
    List,
    Placeholder,
    Annotations,
}

/// An open group, and the number of its items so far.
#[derive(Clone, Copy, Drop)]
pub struct Frame {
    opening: Opening,
    count: u32,
}

/// The state of the parser, by its input so far: a term is next; a term or the end of the group
/// that was just opened is next; after a name; after a body; after a term with its annotations; at
/// the end of the text.
#[derive(Clone, Copy, Drop)]
pub enum Due {
    AtTerm,
    First(Opening),
    Named(Word),
    Body,
    Whole,
    Done,
}

/// Why a token was not read.
#[derive(Clone, Copy, Drop)]
pub enum Stop {
    Refused,
    Memory,
}

impl<T: Drop> From<AllocFailed<T>> for Stop {
    ghost use Rattle.rx_text.specs.declared.reader.Stop.TheVariants.{Memory};

    ghost from_gives = { λ _ e. e ≡ Memory };

    fn from(_error: AllocFailed<T>) -> Self {
        Stop::Memory
    }
}

/// The parser: the text, the stack of open groups, and the nodes that were read.
#[derive(Drop)]
pub struct Reader<'a> {
    bytes: &'a [u8],
    frames: Vec<Frame>,
    nodes: Vec<Node>,
}

impl<'a> Reader<'a> {
    /// Reads a token at the start of a term.
    #[inline(always)]
    fn start(&mut self, token: LexemeKind) -> Result<Due, Stop>
        requires state { IsAt Due.AtTerm self.old }
        requires token { IsToken self.old.bytes.now token }
        requires few { node_count Due.AtTerm self.old ≤ longest }
        ensures moves { Steps Due.AtTerm self.old token result self.new }
        ensures same { self.new.bytes.now ≡ self.old.bytes.now }
        ensures few { IfOk result
            (λ d. node_count d self.new ≤ node_count Due.AtTerm self.old + 1) }
    {
        match token {
            LexemeKind::Integer(value) => {
                self.nodes.push(Node::Integer(value))?;
                Ok(Due::Body)
            }
            LexemeKind::Name(word) => Ok(Due::Named(word)),
            LexemeKind::Open => Ok(Due::First(Opening::Arguments(Word::EMPTY))),
            LexemeKind::OpenBracket => Ok(Due::First(Opening::List)),
            LexemeKind::Less => {
                self.frames.push(Frame {
                    opening: Opening::Placeholder,
                    count: 0,
                })?;
                Ok(Due::AtTerm)
            }
            _ => Err(Stop::Refused),
        }
    }

    /// Reads the mark that closes a group, which is no longer on the stack.
    #[inline(always)]
    fn close(&mut self, frame: Frame, token: LexemeKind) -> Result<Due, Stop>
        requires stack { IsStack self.old.bytes.now (held frame.opening frame.count)
            self.old.frames.items self.old.nodes.items }
        requires opening { IsOpening self.old.bytes.now frame.opening }
        requires unannotated { IsUnannotated frame.opening frame.count
            (made_of self.old.bytes.now self.old.nodes.items) }
        requires few { length self.old.nodes.items ≤ longest }
        ensures moves { let made = made_of self.old.bytes.now self.old.nodes.items in
            Moves self.old.bytes.now (close
            (frame_of self.old.bytes.now frame.opening frame.count made)
            (frames_of self.old.bytes.now (reverse self.old.frames.items)
            (under frame.opening frame.count made)) (token_of self.old.bytes.now token)) result
            self.new.frames.items self.new.nodes.items }
        ensures same { self.new.bytes.now ≡ self.old.bytes.now }
        ensures few { IfOk result (λ d. node_count d self.new ≤ length self.old.nodes.items + 1) }
    {
        match frame.opening {
            Opening::Arguments(word) => match token {
                LexemeKind::Close => {
                    self.nodes.push(Node::Application(word, frame.count))?;
                    Ok(Due::Body)
                }
                _ => Err(Stop::Refused),
            },
            Opening::List => match token {
                LexemeKind::CloseBracket => {
                    self.nodes.push(Node::List(frame.count))?;
                    Ok(Due::Body)
                }
                _ => Err(Stop::Refused),
            },
            Opening::Annotations => match token {
                LexemeKind::CloseBrace => {
                    if frame.count == 0 {
                        return Ok(Due::Whole);
                    }
                    self.nodes.push(Node::Annotations(frame.count))?;
                    Ok(Due::Whole)
                }
                _ => Err(Stop::Refused),
            },
            Opening::Placeholder => Err(Stop::Refused),
        }
    }

    /// Reads the first token of a group: its end, or the start of its first item.
    #[inline(always)]
    fn first(&mut self, opening: Opening, token: LexemeKind) -> Result<Due, Stop>
        requires state { IsAt (Due.First opening) self.old }
        requires token { IsToken self.old.bytes.now token }
        requires few { node_count (Due.First opening) self.old ≤ longest }
        ensures moves { Steps (Due.First opening) self.old token result self.new }
        ensures same { self.new.bytes.now ≡ self.old.bytes.now }
        ensures few { IfOk result
            (λ d. node_count d self.new ≤ node_count (Due.First opening) self.old + 1) }
    {
        let frame = Frame { opening, count: 0 };
        match token {
            LexemeKind::Close => self.close(frame, token),
            LexemeKind::CloseBracket => self.close(frame, token),
            LexemeKind::CloseBrace => self.close(frame, token),
            _ => {
                self.frames.push(frame)?;
                self.start(token)
            }
        }
    }

    /// Counts one more item of the open group, after a comma.
    #[inline(always)]
    fn next_item(&mut self) -> Result<Due, Stop>
        requires state { IsAt Due.Whole self.old }
        requires few { node_count Due.Whole self.old ≤ longest }
        ensures moves { Steps Due.Whole self.old LexemeKind.Comma result self.new }
        ensures same { self.new.bytes.now ≡ self.old.bytes.now }
        ensures few { IfOk result (λ d. node_count d self.new ≤ node_count Due.Whole self.old + 1) }
    {
        let Some(frame) = self.frames.pop() else {
            return Err(Stop::Refused);
        };
        if let Opening::Placeholder = frame.opening {
            return Err(Stop::Refused);
        }
        self.frames.push(Frame {
            opening: frame.opening,
            count: frame.count + 1,
        })?;
        Ok(Due::AtTerm)
    }

    /// Counts one more item of the open group, and reads the mark that closes it.
    #[inline(always)]
    fn end_item(&mut self, token: LexemeKind) -> Result<Due, Stop>
        requires state { IsAt Due.Whole self.old }
        requires few { node_count Due.Whole self.old ≤ longest }
        ensures moves { let made = made_of self.old.bytes.now self.old.nodes.items in
            Moves self.old.bytes.now (end_item (top made)
            (frames_of self.old.bytes.now (reverse self.old.frames.items) (rest made))
            (token_of self.old.bytes.now token)) result self.new.frames.items self.new.nodes.items }
        ensures same { self.new.bytes.now ≡ self.old.bytes.now }
        ensures few { IfOk result (λ d. node_count d self.new ≤ node_count Due.Whole self.old + 1) }
    {
        let Some(frame) = self.frames.pop() else {
            return Err(Stop::Refused);
        };
        if let Opening::Placeholder = frame.opening {
            return Err(Stop::Refused);
        }
        let longer = Frame {
            opening: frame.opening,
            count: frame.count + 1,
        };
        self.close(longer, token)
    }

    /// Ends a placeholder.
    #[inline(always)]
    fn end_placeholder(&mut self) -> Result<Due, Stop>
        requires state { IsAt Due.Whole self.old }
        requires few { node_count Due.Whole self.old ≤ longest }
        ensures moves { Steps Due.Whole self.old LexemeKind.Greater result self.new }
        ensures same { self.new.bytes.now ≡ self.old.bytes.now }
        ensures few { IfOk result (λ d. node_count d self.new ≤ node_count Due.Whole self.old + 1) }
    {
        let Some(frame) = self.frames.pop() else {
            return Err(Stop::Refused);
        };
        let Opening::Placeholder = frame.opening else {
            return Err(Stop::Refused);
        };
        self.nodes.push(Node::Placeholder)?;
        Ok(Due::Body)
    }

    /// Reads a token after a term with its annotations.
    #[inline(always)]
    fn whole(&mut self, token: LexemeKind) -> Result<Due, Stop>
        requires state { IsAt Due.Whole self.old }
        requires token { IsToken self.old.bytes.now token }
        requires few { node_count Due.Whole self.old ≤ longest }
        ensures moves { Steps Due.Whole self.old token result self.new }
        ensures same { self.new.bytes.now ≡ self.old.bytes.now }
        ensures few { IfOk result (λ d. node_count d self.new ≤ node_count Due.Whole self.old + 1) }
    {
        match token {
            LexemeKind::Comma => self.next_item(),
            LexemeKind::Close => self.end_item(token),
            LexemeKind::CloseBracket => self.end_item(token),
            LexemeKind::CloseBrace => self.end_item(token),
            LexemeKind::Greater => self.end_placeholder(),
            LexemeKind::End => {
                if self.frames.is_empty() {
                    Ok(Due::Done)
                } else {
                    Err(Stop::Refused)
                }
            }
            _ => Err(Stop::Refused),
        }
    }

    /// Reads a token after a term that may have annotations.
    #[inline(always)]
    fn body(&mut self, token: LexemeKind) -> Result<Due, Stop>
        requires state { IsAt Due.Body self.old }
        requires token { IsToken self.old.bytes.now token }
        requires few { node_count Due.Body self.old ≤ longest }
        ensures moves { Steps Due.Body self.old token result self.new }
        ensures same { self.new.bytes.now ≡ self.old.bytes.now }
        ensures few { IfOk result (λ d. node_count d self.new ≤ node_count Due.Body self.old + 1) }
    {
        match token {
            LexemeKind::OpenBrace => Ok(Due::First(Opening::Annotations)),
            _ => self.whole(token),
        }
    }

    /// Reads a token after a name.
    #[inline(always)]
    fn after_name(&mut self, word: Word, token: LexemeKind) -> Result<Due, Stop>
        requires state { IsAt (Due.Named word) self.old }
        requires token { IsToken self.old.bytes.now token }
        requires few { node_count (Due.Named word) self.old ≤ longest }
        ensures moves { Steps (Due.Named word) self.old token result self.new }
        ensures same { self.new.bytes.now ≡ self.old.bytes.now }
        ensures few { IfOk result
            (λ d. node_count d self.new ≤ node_count (Due.Named word) self.old + 1) }
    {
        match token {
            LexemeKind::Open => Ok(Due::First(Opening::Arguments(word))),
            _ => {
                self.nodes.push(Node::Application(word, 0))?;
                self.body(token)
            }
        }
    }

    /// Reads the next token, in any state.
    #[inline(always)]
    fn step(&mut self, due: Due, token: LexemeKind) -> Result<Due, Stop>
        requires state { IsAt due self.old }
        requires token { IsToken self.old.bytes.now token }
        requires few { node_count due self.old ≤ longest }
        ensures moves { Steps due self.old token result self.new }
        ensures same { self.new.bytes.now ≡ self.old.bytes.now }
        ensures few { IfOk result (λ d. node_count d self.new ≤ node_count due self.old + 1) }
    {
        match due {
            Due::AtTerm => self.start(token),
            Due::First(opening) => self.first(opening, token),
            Due::Named(word) => self.after_name(word, token),
            Due::Body => self.body(token),
            Due::Whole => self.whole(token),
            Due::Done => Err(Stop::Refused),
        }
    }
}

/// Parses a text into nodes.
pub fn read_nodes(alloc: Global, bytes: &[u8]) -> Result<Vec<Node>, TextFault>
    requires { length bytes.now ≤ longest }
    ensures { MatchResult result (λ nodes. AreRead bytes.now nodes.items) (IsFault bytes.now) }
{
    let mut reader = Reader {
        bytes,
        frames: Vec::new(alloc),
        nodes: Vec::new(alloc),
    };
    let mut due = Due::AtTerm;
    let mut from = 0;
    loop {
        let lexeme = next(reader.bytes, from);
        due = match reader.step(due, lexeme.kind) {
            Ok(due) => due,
            Err(Stop::Memory) => return Err(TextFault::Memory),
            Err(Stop::Refused) => {
                return Err(TextFault::Grammar {
                    at: lexeme.at as u32,
                });
            }
        };
        if let LexemeKind::End = lexeme.kind {
            return Ok(reader.nodes);
        }
        from = lexeme.to;
    }
}
