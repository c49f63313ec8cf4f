//! Tests of what is shown while standard input is typed at a terminal.

use crate::prompts::Typed;
use recw_cli::{Asked, read_words};
use std::alloc::Global;
use std::io;
use std::io::{Read, Write};
use std::process::Abort;

/// An output that appends to a vector.
#[derive(Drop)]
struct Shared<'a>(&'a mut Vec<u8>);

impl Write for Shared<'_> {
    fn write(&mut self, buf: &[u8]) -> io::Result<usize> {
        self.0.write(buf)
    }

    fn flush(&mut self) -> io::Result<()> {
        Ok(())
    }
}

/// The line for a specification.
const SPECIFICATION: &str =
    "recw: reading a specification from standard input; end with Ctrl-D, or see recw --help\n";

/// The line for a term.
const TERM: &str =
    "recw: reading a term from standard input; end with Ctrl-D, or see recw --help\n";

/// The line for input terms.
const TERMS: &str =
    "recw: reading a list of terms from standard input; end with Ctrl-D, or see recw --help\n";

/// The line for requests, and the prompts for two requests and the end.
const SESSION: &str =
    "recw: reading one term per line from standard input; end with Ctrl-D, or see recw --help\n\
     rec> rec> rec> \n";

/// Arguments, and what is shown while they read two lines.
const SHOWN: [(&[&str], &str); 12] = [
    (&[], SPECIFICATION),
    (&["eval", "-", "-e", "z"], SPECIFICATION),
    (&["eval", "spec", "-"], TERMS),
    (&["trace", "-"], SPECIFICATION),
    (&["trace", "spec", "-"], TERMS),
    (&["serve", "spec"], SESSION),
    (&["serve", "-", "requests"], SPECIFICATION),
    (&["check", "spec", "-"], SPECIFICATION),
    (&["uses"], SPECIFICATION),
    (&["aterm"], TERM),
    (&["share", "-"], TERM),
    (&["match", "a"], TERM),
];

/// Reads two lines and the end, as from a terminal.
fn read_lines(words: &[&str], alloc: Global, shown: &mut Vec<u8>) -> io::Result<[usize; 3]> {
    let mut told = Vec::new(alloc);
    let Asked::Run(invocation) = read_words(alloc, words, &mut io::sink(), &mut told) else {
        return Ok([0; 3]);
    };
    let mut lines = b"a\nb\n".as_slice();
    let mut typed = Typed::new(&mut lines, &invocation, Some(Shared(shown)));
    let mut buf = [0u8; 2];
    Ok([
        typed.read(&mut buf)?,
        typed.read(&mut buf)?,
        typed.read(&mut buf)?,
    ])
}

/// Checks what is shown while two lines are read.
fn shows(rt: &impl Abort, alloc: Global, words: &[&str], wanted: &str) -> io::Result<()> {
    let mut shown = Vec::new(alloc);
    let counts = read_lines(words, alloc, &mut shown)?;
    assert!(rt;
        counts == [2, 2, 0] && shown.as_slice() == wanted.as_bytes(),
        "{words:?}"
    );
    Ok(())
}

#[test]
fn names_what_is_typed(rt: HostRuntime) -> io::Result<()> {
    for (words, wanted) in &SHOWN {
        shows(&rt, rt.alloc(), words, wanted)?;
    }
    Ok(())
}
