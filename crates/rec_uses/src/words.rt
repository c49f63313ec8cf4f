//! Words of a specification with their bytes.

ghost use Rattle.std.specs.Prelude.{◌≡◌};
ghost use Rattle.rec_syntax.specs.Lexemes.{word_of};
ghost use Rattle.rec_syntax.specs.Parts.{Within};
ghost use Rattle.rec_uses.specs.Inner.Values.{as_word};

use rec_syntax::{Span, Syntax};

/// A word and its offset in the text.
#[derive(Clone, Copy, Drop)]
pub struct Word<'a> {
    pub at: usize,
    pub bytes: &'a [u8],
}

/// Returns the word of a span.
pub(crate) fn word_at<'a>(syntax: &'a Syntax, span: Span) -> Word<'a>
    requires { Within syntax.now.source span }
    ensures { as_word result ≡ word_of syntax.now.source span }
{
    Word {
        at: span.from,
        bytes: syntax.word(span),
    }
}
