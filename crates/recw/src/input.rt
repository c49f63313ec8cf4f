//! The input of a run.

use recw_cli::STANDARD_INPUT;
use std::fs::File;
use std::io;
use std::io::{ErrorKind, Read};
use std::rt::Files;

/// The files and the standard input of a run.
#[derive(Drop)]
pub struct Sources<'a, H, R> {
    /// Opens the files.
    pub rt: &'a H,
    /// Standard input.
    pub input: &'a mut R,
}

/// Standard input or a file.
#[derive(Drop)]
pub enum Input<'a, R, F> {
    /// Standard input.
    Standard(&'a mut R),
    /// A file.
    File(F),
}

impl<R: Read, F: Read> Read for Input<'_, R, F> {
    fn read(&mut self, buf: &mut [u8]) -> io::Result<usize> {
        match self {
            Input::Standard(input) => input.read(buf),
            Input::File(file) => file.read(buf),
        }
    }
}

/// Opens the file at `path`, or uses standard input if there is no path or the path is `-`.
pub fn open<'a, H: Files, R: Read>(
    rt: &H,
    path: Option<&str>,
    input: &'a mut R,
) -> io::Result<Input<'a, R, H::File>> {
    match path {
        Some(path) if path != STANDARD_INPUT => Ok(Input::File(File::open(rt, path)?)),
        _ => Ok(Input::Standard(input)),
    }
}

/// Opens the file at `path`. Fails if there is no path.
pub fn open_file<H: Files>(rt: &H, path: Option<&str>) -> io::Result<H::File> {
    match path {
        Some(path) => File::open(rt, path),
        None => Err(io::Error::from(ErrorKind::NotFound)),
    }
}

/// Opens the file at `path`, if there is one.
pub fn open_given<H: Files>(rt: &H, path: Option<&str>) -> io::Result<Option<H::File>> {
    match path {
        None => Ok(None),
        Some(path) => Ok(Some(File::open(rt, path)?)),
    }
}
