//! Runs on the text of one annotated term.

ghost use Rattle.rx_render.specs.Due.{IsDotDue};
ghost use Rattle.rx_run.specs.TermRuns.{IsShareDue, IsTermDue};
ghost use Rattle.recw_wasm.specs.Answers.{Answers};

use crate::handing::hand_ending;
use crate::told::Told;
use rx_render::run_share_dot;
use rx_run::{InputForm, print_term, share_term};
use std::alloc::Global;

/// Prints a term.
#[unsafe(no_mangle)]
pub extern "C" fn recw_aterm(alloc: Global, term: &[u8], out: &mut [u8], told: &mut Told) -> u32
    ensures { Answers (IsTermDue term.now) result told.new out.old out.new }
{
    let mut text = term;
    let mut lines = Vec::new(alloc);
    let end = print_term(alloc, &mut text, &mut lines);
    hand_ending(end, lines, out, told)
}

/// Prints a term, and counts its different parts.
#[unsafe(no_mangle)]
pub extern "C" fn recw_share(alloc: Global, term: &[u8], out: &mut [u8], told: &mut Told) -> u32
    ensures { Answers (IsShareDue term.now) result told.new out.old out.new }
{
    let mut text = term;
    let mut lines = Vec::new(alloc);
    let end = share_term(alloc, &mut text, &mut lines);
    hand_ending(end, lines, out, told)
}

/// Writes the graph of a term for Graphviz, with at most `nodes` nodes.
#[unsafe(no_mangle)]
pub extern "C" fn recw_share_dot(
    alloc: Global,
    term: &[u8],
    nodes: u32,
    out: &mut [u8],
    told: &mut Told,
) -> u32
    ensures { Answers (IsDotDue nodes term.now) result told.new out.old out.new }
{
    let mut text = term;
    let mut lines = Vec::new(alloc);
    let end = run_share_dot(alloc, InputForm::Term, &mut text, nodes, &mut lines);
    hand_ending(end, lines, out, told)
}
