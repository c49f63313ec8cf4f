//! What is shown while standard input is typed at a terminal.

use recw_cli::{Invocation, Request, STANDARD_INPUT};
use std::io;
use std::io::{Read, Write};

/// The prompt for a request.
const PROMPT: &[u8] = b"rec> ";

/// The name of the text that most commands read.
const SPECIFICATION: &str = "a specification";

/// Standard input. If it is typed at a terminal, the first read is preceded by a line that names
/// what is read, and each read of requests by a prompt. What cannot be written is dropped.
#[derive(Drop)]
pub struct Typed<'a, R, P> {
    /// The wrapped reader.
    input: &'a mut R,
    /// What is read, until that has been shown.
    text: Option<&'static str>,
    /// Whether requests are read.
    is_session: bool,
    /// The output of the line and the prompts, if the input is typed.
    prompts: Option<P>,
}

impl<'a, R: Read, P: Write + Drop> Typed<'a, R, P> {
    /// Returns a wrapper of standard input for a command. It is typed if there are `prompts`.
    pub fn new(
        input: &'a mut R,
        invocation: &Invocation<'_>,
        prompts: Option<P>,
    ) -> Typed<'a, R, P> {
        Typed {
            input,
            text: text_on_input(invocation),
            is_session: matches!(invocation.request, Request::Serve { requests: None, .. }),
            prompts,
        }
    }
}

impl<R: Read, P: Write> Read for Typed<'_, R, P> {
    fn read(&mut self, buf: &mut [u8]) -> io::Result<usize> {
        if let Some(prompts) = &mut self.prompts {
            let _ = announce(self.text.take(), self.is_session, prompts);
        }
        let end = self.input.read(buf);
        if let Some(prompts) = &mut self.prompts
            && self.is_session
            && matches!(end, Ok(0))
        {
            // The shell's prompt gets a line of its own.
            let _ = prompts.write_all(b"\n");
        }
        end
    }
}

/// Names the text that is read, if that is given, and shows a prompt in a session.
fn announce<P: Write>(text: Option<&str>, is_session: bool, prompts: &mut P) -> io::Result<()> {
    if let Some(text) = text {
        writeln!(
            prompts,
            "recw: reading {text} from standard input; end with Ctrl-D, or see recw --help"
        )?;
    }
    if is_session {
        prompts.write_all(PROMPT)?;
    }
    Ok(())
}

/// Returns what a run reads from standard input, if it does.
fn text_on_input(invocation: &Invocation<'_>) -> Option<&'static str> {
    let request = &invocation.request;
    match request {
        Request::Make { .. } => None,
        Request::Check { .. } => Some(SPECIFICATION),
        Request::Serve { requests: None, .. } => Some("one term per line"),
        _ if request.terms_path() == Some(STANDARD_INPUT) => Some("a list of terms"),
        Request::Aterm { .. } | Request::Share { .. } | Request::Match { .. } => Some("a term"),
        _ => Some(SPECIFICATION),
    }
}
