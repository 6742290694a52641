//! What an editor calls, with the calling convention of C: the questions of the crate embed.
//!
//! Each call does a whole job. A refusal is answered as minus its number, want of memory as -1000.
#![tactic(auto)]

ghost use Rattle.embed.specs.Answers.{Answers, AsNumber};
ghost use Rattle.embed.specs.Exports.{SettlesUnder, JudgesUnder, NumbersUnder};
ghost use Rattle.embed.specs.Reporting.{TextReports};
ghost use Rattle.embed.specs.Settling.{handed};

use embed::failure::{Failure, answer};
use embed::reporting::report_text;
use embed::slots::{EventReading, FaultPlace};
use embed::{judge_under, number_under, settle_under};
use records::entry::Need;
use std::alloc::Global;

/// What `check` prints for a text; answers how many bytes that is.
#[unsafe(no_mangle)]
pub extern "C" fn vaultginger_report(heap: Global, text: &[u8], out: &mut [u8]) -> i64
    ensures { Answers (TextReports text.now out.old out.new) result }
{
    // a cast: a length fits an i64, but there is no From
    report_text(heap, text, out).map_or_else(Failure::answer, |count| count as i64)
}

/// Loads a text and settles it from one of its events: fills a slot for each event, and answers how many there are.
/// Where the sheet is contradictory it fills a byte for each bound instead, 1 for those in the knot.
#[unsafe(no_mangle)]
pub extern "C" fn vaultginger_settle(
    heap: Global,
    rules: u8,
    text: &[u8],
    source: usize,
    events: &mut [EventReading],
    knot: &mut [u8],
    fault: &mut [FaultPlace],
) -> i64
    ensures { Answers (SettlesUnder rules text.now source (handed events.old knot.old fault.old) (handed events.new knot.new fault.new)) result }
{
    answer(settle_under(heap, rules, text, source, events, knot, fault))
}

/// Loads a text and judges a need on it: 1 where it is met, 0 where it is broken.
#[unsafe(no_mangle)]
pub extern "C" fn vaultginger_need(
    heap: Global,
    rules: u8,
    text: &[u8],
    from: usize,
    to: usize,
    most: i64,
) -> i64
    ensures { Answers (AsNumber (JudgesUnder rules text.now from to most)) result }
{
    answer(judge_under(heap, rules, text, Need { from, to, most }).map(u32::from))
}

/// Loads a text; answers the number of the event with this name.
#[unsafe(no_mangle)]
pub extern "C" fn vaultginger_event_number(heap: Global, rules: u8, text: &[u8], name: &[u8]) -> i64
    ensures { Answers (NumbersUnder rules text.now name.now) result }
{
    answer(number_under(heap, rules, text, name))
}
