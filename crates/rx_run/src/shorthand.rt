//! Short forms of the runs, which return a `Finish` and store the location of an error.

ghost use Rattle.std.specs.Prelude.{◌≡◌, ◌≢◌, None, IfErr, IfOk, OnErr, OnOk};
ghost use Rattle.rx_term.specs.Tree.{Tree};
ghost use Rattle.rx_run.specs.PatternRuns.{IsMakeDue, IsMatchDue, IsNoPattern, SpellsPattern};
ghost use Rattle.rx_run.specs.Run.{Breaks, BreaksFor, Ends, EndsFor, IsPlaced, IsPlacedFor};
ghost use Rattle.rx_run.specs.Run.{IsNotDeep, IsReadOut};
ghost use Rattle.rx_run.specs.TermRuns.{IsShareDue, IsTermDue};

use crate::ending::{Finish, Place, RunFault};
use crate::pattern::making::make_term;
use crate::pattern::matching::match_term;
use crate::term::runs::{print_term, share_term};
use std::alloc::Global;
use std::io::{Read, Write};

/// Reads the text of a term and writes its printed form and a line end, or its error line. Flushes
/// at the end. After an error the position of the reader is unspecified.
pub fn run_aterm<R: Read, W: Write>(
    alloc: Global,
    input: &mut R,
    out: &mut W,
) -> Result<Finish, RunFault>
    ensures output { IfOk result (λ finish. EndsFor IsTermDue (R.remaining input.old)
        finish (W.contents out.old) (W.contents out.new)) }
    ensures fault { IfErr result (λ fault. BreaksFor IsTermDue (R.remaining input.old)
        fault (W.contents out.old) (W.contents out.new)) }
    ensures no_depth { IfErr result IsNotDeep }
    ensures input_read { OnOk result (IsReadOut (R.remaining input.old) (R.remaining input.new)) }
{
    let mut place = None;
    run_aterm_at(alloc, input, out, &mut place)
}

/// Reads the text of a term and writes its printed form and a line end, or its error line. Flushes
/// at the end. Stores the location of the error in `place`, or `None`. After an error the position
/// of the reader is unspecified.
pub fn run_aterm_at<R: Read, W: Write>(
    alloc: Global,
    input: &mut R,
    out: &mut W,
    place: &mut Option<Place>,
) -> Result<Finish, RunFault>
    ensures output { IfOk result (λ finish. EndsFor IsTermDue (R.remaining input.old)
        finish (W.contents out.old) (W.contents out.new)) }
    ensures place { OnOk result (IsPlacedFor IsTermDue (R.remaining input.old) place.new) }
    ensures fault { IfErr result (λ fault. BreaksFor IsTermDue (R.remaining input.old)
        fault (W.contents out.old) (W.contents out.new)) }
    ensures no_depth { IfErr result IsNotDeep }
    ensures no_place { OnErr result (place.new ≡ None) }
    ensures input_read { OnOk result (IsReadOut (R.remaining input.old) (R.remaining input.new)) }
{
    match print_term(alloc, input, out) {
        Ok(ending) => {
            *place = ending.place();
            Ok(ending.finish())
        }
        Err(fault) => {
            *place = None;
            Err(fault)
        }
    }
}

/// Reads the text of a term and writes a line with its printed form and a line with the number of
/// its cells, or its error line. Flushes at the end. After an error the position of the reader is
/// unspecified.
pub fn run_share<R: Read, W: Write>(
    alloc: Global,
    input: &mut R,
    out: &mut W,
) -> Result<Finish, RunFault>
    ensures output { IfOk result (λ finish. EndsFor IsShareDue (R.remaining input.old)
        finish (W.contents out.old) (W.contents out.new)) }
    ensures fault { IfErr result (λ fault. BreaksFor IsShareDue (R.remaining input.old)
        fault (W.contents out.old) (W.contents out.new)) }
    ensures no_depth { IfErr result IsNotDeep }
    ensures input_read { OnOk result (IsReadOut (R.remaining input.old) (R.remaining input.new)) }
{
    let mut place = None;
    run_share_at(alloc, input, out, &mut place)
}

/// Reads the text of a term and writes a line with its printed form and a line with the number of
/// its cells, or its error line. Flushes at the end. Stores the location of the error in `place`,
/// or `None`. After an error the position of the reader is unspecified.
pub fn run_share_at<R: Read, W: Write>(
    alloc: Global,
    input: &mut R,
    out: &mut W,
    place: &mut Option<Place>,
) -> Result<Finish, RunFault>
    ensures output { IfOk result (λ finish. EndsFor IsShareDue (R.remaining input.old)
        finish (W.contents out.old) (W.contents out.new)) }
    ensures place { OnOk result (IsPlacedFor IsShareDue (R.remaining input.old) place.new) }
    ensures fault { IfErr result (λ fault. BreaksFor IsShareDue (R.remaining input.old)
        fault (W.contents out.old) (W.contents out.new)) }
    ensures no_depth { IfErr result IsNotDeep }
    ensures no_place { OnErr result (place.new ≡ None) }
    ensures input_read { OnOk result (IsReadOut (R.remaining input.old) (R.remaining input.new)) }
{
    match share_term(alloc, input, out) {
        Ok(ending) => {
            *place = ending.place();
            Ok(ending.finish())
        }
        Err(fault) => {
            *place = None;
            Err(fault)
        }
    }
}

/// Matches a pattern with the text of a term. Writes `yes` and a line for each binding, or `no`, or
/// the error line of a rejected input, and flushes. If the pattern is rejected, the input is not
/// read. After an error the position of the reader is unspecified.
pub fn run_match<R: Read, W: Write>(
    alloc: Global,
    pattern: &[u8],
    input: &mut R,
    out: &mut W,
) -> Result<Finish, RunFault>
    ensures output { IfOk result (λ finish. EndsFor (IsMatchDue pattern.now)
        (R.remaining input.old) finish (W.contents out.old) (W.contents out.new)) }
    ensures fault { IfErr result (λ fault. BreaksFor (IsMatchDue pattern.now)
        (R.remaining input.old) fault (W.contents out.old) (W.contents out.new)) }
    ensures no_depth { IfErr result IsNotDeep }
    ensures input_read { OnOk result ((p : Tree) → SpellsPattern pattern.now p
        → IsReadOut (R.remaining input.old) (R.remaining input.new)) }
    ensures unread { IsNoPattern pattern.now → input.new ≡ input.old }
{
    let mut place = None;
    run_match_at(alloc, pattern, input, out, &mut place)
}

/// Matches a pattern with the text of a term. Writes `yes` and a line for each binding, or `no`, or
/// the error line of a rejected input, and flushes. Stores the location of the error in `place`, or
/// `None`. If the pattern is rejected, the input is not read. After an error the position of the
/// reader is unspecified.
pub fn run_match_at<R: Read, W: Write>(
    alloc: Global,
    pattern: &[u8],
    input: &mut R,
    out: &mut W,
    place: &mut Option<Place>,
) -> Result<Finish, RunFault>
    ensures output { IfOk result (λ finish. EndsFor (IsMatchDue pattern.now)
        (R.remaining input.old) finish (W.contents out.old) (W.contents out.new)) }
    ensures place { OnOk result
        (IsPlacedFor (IsMatchDue pattern.now) (R.remaining input.old) place.new) }
    ensures fault { IfErr result (λ fault. BreaksFor (IsMatchDue pattern.now)
        (R.remaining input.old) fault (W.contents out.old) (W.contents out.new)) }
    ensures no_depth { IfErr result IsNotDeep }
    ensures no_place { OnErr result (place.new ≡ None) }
    ensures input_read { OnOk result ((p : Tree) → SpellsPattern pattern.now p
        → IsReadOut (R.remaining input.old) (R.remaining input.new)) }
    ensures unread { IsNoPattern pattern.now → input.new ≡ input.old }
{
    match match_term(alloc, pattern, input, out) {
        Ok(report) => {
            *place = report.ending.place();
            Ok(report.ending.finish())
        }
        Err(fault) => {
            *place = None;
            Err(fault)
        }
    }
}

/// Fills a pattern with arguments, and writes the printed form of the result and a line end, or the
/// error line of a rejected input. Flushes at the end.
pub fn run_make<W: Write>(
    alloc: Global,
    pattern: &[u8],
    args: &[u8],
    out: &mut W,
) -> Result<Finish, RunFault>
    ensures output { IfOk result (λ finish.
        Ends (IsMakeDue pattern.now args.now) finish (W.contents out.old) (W.contents out.new)) }
    ensures fault { IfErr result (λ fault.
        Breaks (IsMakeDue pattern.now args.now) fault (W.contents out.old) (W.contents out.new)) }
    ensures no_depth { IfErr result IsNotDeep }
    ensures no_reader { IfErr result (λ fault. fault ≢ RunFault.Read) }
{
    let mut place = None;
    run_make_at(alloc, pattern, args, out, &mut place)
}

/// Fills a pattern with arguments, and writes the printed form of the result and a line end, or the
/// error line of a rejected input. Flushes at the end. Stores the location of the error in `place`,
/// or `None`.
pub fn run_make_at<W: Write>(
    alloc: Global,
    pattern: &[u8],
    args: &[u8],
    out: &mut W,
    place: &mut Option<Place>,
) -> Result<Finish, RunFault>
    ensures output { IfOk result (λ finish.
        Ends (IsMakeDue pattern.now args.now) finish (W.contents out.old) (W.contents out.new)) }
    ensures place { OnOk result (IsPlaced (IsMakeDue pattern.now args.now) place.new) }
    ensures fault { IfErr result (λ fault.
        Breaks (IsMakeDue pattern.now args.now) fault (W.contents out.old) (W.contents out.new)) }
    ensures no_depth { IfErr result IsNotDeep }
    ensures no_place { OnErr result (place.new ≡ None) }
    ensures no_reader { IfErr result (λ fault. fault ≢ RunFault.Read) }
{
    match make_term(alloc, pattern, args, out) {
        Ok(ending) => {
            *place = ending.place();
            Ok(ending.finish())
        }
        Err(fault) => {
            *place = None;
            Err(fault)
        }
    }
}
