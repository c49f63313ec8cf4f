//! Evaluations with a profile.

ghost use Rattle.std.specs.Prelude.{Some};
ghost use Rattle.recw_wasm.specs.Answers.{Answers, IsEvalDue};

use crate::evaluating::evaluate_given;
use crate::handing::hand_ending;
use crate::options::Options;
use crate::told::Told;
use rec_run::{Profiler, RuleCount, Tally};
use rec_sorts::Checked;
use std::alloc::Global;

/// The number of values before those of the rules.
const TOTALS: usize = 7;

/// The number of values for each rule.
const OF_RULE: usize = 3;

/// Evaluates the terms of a specification, and then input terms, and writes the profile to
/// `counts`, as far as it has room: the number of rules that were counted; the steps spent, the
/// hits of the memo table, the steps that these saved, the cells made, the most cells in use, the
/// garbage collections; and for each rule, in order, how often it matched, applied and failed. If a
/// text is rejected, or memory runs out before the evaluation, nothing is written there.
#[unsafe(no_mangle)]
pub extern "C" fn recw_profile(
    alloc: Global,
    spec: &[u8],
    terms: &[u8],
    options: &Options,
    counts: &mut [u64],
    out: &mut [u8],
    told: &mut Told,
) -> u32
    ensures { Answers (IsEvalDue options.now spec.now (Some terms.now)) result told.new
        out.old out.new }
{
    let mut given = terms;
    let mut lines = Vec::new(alloc);
    let profiler = Counts { room: counts };
    let end = evaluate_given(spec, &mut given, options.within(), profiler, &mut lines);
    hand_ending(end, lines, out, told)
}

/// A profiler that writes its numbers to a buffer of the host.
#[derive(Drop)]
struct Counts<'a> {
    /// The buffer.
    room: &'a mut [u64],
}

impl Profiler for Counts<'_> {
    fn counts_rules(&self) -> bool {
        true
    }

    fn conclude(&mut self, _checked: &Checked, counts: &[RuleCount], tally: Tally) {
        write_totals(counts.len(), tally, self.room);
        for (i, count) in counts.iter().enumerate() {
            let at = i.saturating_mul(OF_RULE).saturating_add(TOTALS);
            write_rule(*count, at, self.room);
        }
    }
}

/// Writes the number of rules that were counted, and the totals.
fn write_totals(rules: usize, tally: Tally, room: &mut [u64]) {
    put(room, 0, rules as u64);
    put(room, 1, tally.steps);
    put(room, 2, tally.remembered);
    put(room, 3, tally.saved);
    put(room, 4, tally.made);
    put(room, 5, u64::from(tally.most));
    put(room, 6, tally.reclaims);
}

/// Writes the counts of a rule.
fn write_rule(count: RuleCount, at: usize, room: &mut [u64]) {
    put(room, at, count.matched);
    put(room, at.saturating_add(1), count.fired);
    put(room, at.saturating_add(2), count.failed);
}

/// Writes a number, if there is room for it.
fn put(room: &mut [u64], at: usize, number: u64) {
    if let Some(place) = room.get_mut(at) {
        *place = number;
    }
}
