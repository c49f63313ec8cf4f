//! Input terms given with `-e`.

use recw_cli::Given;
use rx_run::{RunFault, print_term};
use std::alloc::Global;
use std::io;

/// Returns the list of these terms as a text. The first malformed term makes the list malformed at
/// the same location.
pub fn given_by(alloc: Global, words: &[&str]) -> Result<Given, RunFault> {
    let mut given = Given::new(alloc);
    for word in words {
        let fault = fault_of(alloc, word)?;
        given.push(word, fault)?;
    }
    given.end()?;
    Ok(given)
}

/// Returns the offset of a syntax error in a term, if there is one.
fn fault_of(alloc: Global, word: &str) -> Result<Option<usize>, RunFault> {
    let ending = print_term(alloc, &mut word.as_bytes(), &mut io::sink())?;
    Ok(ending.place().map(|place| place.at as usize))
}
