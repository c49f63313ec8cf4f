//! Tests of messages on a terminal, and of early flushes.

use crate::tests::{ADDITION, run_before};
use recw_cli::{Console, Prompt};
use std::alloc::Global;
use std::io;
use std::io::{ErrorKind, Write};
use std::process::Abort;
use std::rt::Files;
use std::time::{Clock, Duration};

/// On a terminal, errors are explained without `--explain`.
fn explains_unasked<H: Abort + Files>(rt: &H, alloc: Global) {
    let mut input = "REC-SPEC E".as_bytes();
    let ran = run_before(rt, alloc, &["eval"], &mut input, true);
    let said = "recw: spec G at byte 10\n<stdin>:1:11: G: ";
    assert!(rt; ran.err().starts_with(said), "{}", ran.err());
}

/// Usage errors are shown without control bytes.
fn shows_words<H: Abort + Files>(rt: &H, alloc: Global) {
    let word = "x\u{1b}[1m\u{9b}\u{e9}.rec";
    let mut input = ADDITION.as_bytes();
    let ran = run_before(rt, alloc, &[word], &mut input, true);
    let said = "x\\x1b[1m";
    assert!(rt;
        ran.err().contains(said) && !ran.err().contains('\u{1b}'),
        "{}",
        ran.err()
    );
    assert!(rt; !ran.err().contains('\u{9b}') && ran.err().contains("\\x9b\u{e9}.rec"));
    let quoted = "recw eval 'x\\x1b";
    assert!(rt; ran.err().contains(quoted), "{}", ran.err());
}

/// A path is shown without control characters, on a terminal or not.
fn shows_paths<H: Abort + Files>(rt: &H, alloc: Global) {
    let words = ["aterm", "--explain", "no\nsuch\u{7f}file"];
    let mut input = ADDITION.as_bytes();
    let ran = run_before(rt, alloc, &words, &mut input, false);
    let said = "recw: read failed\nno\\x0asuch\\x7ffile: No such file or directory\n";
    assert!(rt; ran.err() == said, "{}", ran.err());
}

#[test]
fn tells_more_where_it_is_read(rt: HostRuntime) {
    explains_unasked(&rt, rt.alloc());
    shows_words(&rt, rt.alloc());
    shows_paths(&rt, rt.alloc());
}

#[test]
fn shows_control_bytes(rt: HostRuntime) {
    let mut console = Console::new(Vec::new(rt.alloc()), true);
    let told = console.write_all("\ta\u{0}b\r\n\u{9f}\u{e9}\u{ff5f}\u{85}".as_bytes());
    let shown = console.into_inner();
    assert!(rt; told.is_ok());
    let wanted = b"\ta\\x00b\\x0d\n\\x9f\xC3\xA9\xEF\xBD\x9F\\x85".as_slice();
    assert!(rt; shown.as_slice() == wanted);
}

/// A writer that counts its flushes.
#[derive(Drop)]
struct Counting {
    /// The number of flushes.
    flushes: u32,
}

impl Write for &mut Counting {
    fn write(&mut self, buf: &[u8]) -> io::Result<usize> {
        Ok(buf.len())
    }

    fn flush(&mut self) -> io::Result<()> {
        self.flushes = self.flushes.saturating_add(1);
        Ok(())
    }
}

/// A clock that stands still, or that has no time.
#[derive(Drop)]
struct Standing {
    /// Whether it has a time.
    is_wound: bool,
}

impl Clock for Standing {
    fn monotonic(&self) -> io::Result<Duration> {
        if self.is_wound {
            Ok(Duration::from_secs(7))
        } else {
            Err(io::Error::from(ErrorKind::Other))
        }
    }

    fn since_1970(&self) -> io::Result<Duration> {
        Ok(Duration::ZERO)
    }
}

/// Writes lines, each in two pieces.
fn write_lines<W: Write>(count: u32, out: &mut W) -> io::Result<()> {
    for _ in 0..count {
        out.write_all(b"z")?;
        out.write_all(b"\n")?;
    }
    Ok(())
}

/// The number of lines, whether the clock has a time, and the expected number of flushes.
const LINES: [(u32, bool, u32); 4] = [
    (0, true, 0),
    (1000, true, 1000),
    (3000, true, 1001),
    (3000, false, 1000),
];

/// Compares the number of flushes.
fn hands_on(rt: &impl Abort, count: u32, is_wound: bool, flushes: u32) {
    let mut counting = Counting { flushes: 0 };
    let clock = Standing { is_wound };
    let mut prompt = Prompt::new(&clock, &mut counting);
    let written = write_lines(count, &mut prompt);
    let found = counting.flushes;
    assert!(rt;
        written.is_ok() && found == flushes,
        "{count} {is_wound}: {found}"
    );
}

#[test]
fn hands_lines_on_soon(rt: HostRuntime) {
    for (count, is_wound, flushes) in &LINES {
        hands_on(&rt, *count, *is_wound, *flushes);
    }
}
