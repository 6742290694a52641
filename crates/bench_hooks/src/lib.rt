//! An export for timing alone: a text is loaded once and settled many times.
#![tactic(auto)]

ghost use Rattle.sheet.specs.Model.{sheet_of};
ghost use Rattle.embed.specs.Answers.{Answers, Under};
ghost use Rattle.embed.specs.Opened.{sheet_of_text};
ghost use Rattle.embed.specs.Rules.{rule_numbered, admits_by, enough_by};
ghost use Rattle.bench_hooks.specs.Times.{Counts, TextCounts};

use embed::failure::{Failure, answer};
use embed::opened::open_text;
use embed::under;
use rules::RuleSet;
use settle::settled::settle;
use sheet::drawn::Drawn;
use std::alloc::Global;

/// How many of so many settlings found some timetable.
fn settle_sheet_times<R: RuleSet + Drop>(sheet: Drawn<R>, source: usize, times: u32) -> u32
    ensures { Counts (R.RuleSet.suffices sheet.rules) (sheet_of sheet) source times result }
{
    let mut drawn = sheet;
    let mut count = 0;
    for _turn in 0..times {
        let settled = settle(drawn, source);
        count += u32::from(settled.read(source).is_ok());
        drawn = settled.reopen();
    }
    count
}

fn settle_text_times<R: RuleSet + Drop>(
    heap: Global,
    rules: R,
    text: &[u8],
    source: usize,
    times: u32,
) -> Result<u32, Failure>
    ensures { TextCounts (R.RuleSet.suffices rules) (sheet_of_text (R.RuleSet.admitted rules) text.now) source times result }
{
    let sheet = open_text(heap, rules, text)?;
    Ok(settle_sheet_times(sheet, source, times))
}

fn settle_times_under(
    heap: Global,
    rules: u8,
    text: &[u8],
    source: usize,
    times: u32,
) -> Result<u32, Failure>
    ensures { Under (rule_numbered rules) (λ by. TextCounts (enough_by by) (sheet_of_text (admits_by by) text.now) source times) (Unit {0}) result }
{
    under!(
        rules,
        |set| settle_text_times(heap, set, text, source, times)
    )
}

/// Loads a text once and settles it so many times from `source`. Answers how many settlings found some timetable: all,
/// or none where the sheet is contradictory or the source is no event. A refusal is answered as minus its number.
#[unsafe(no_mangle)]
pub extern "C" fn vaultginger_settle_times(
    heap: Global,
    rules: u8,
    text: &[u8],
    source: usize,
    times: u32,
) -> i64
    ensures { Answers (Under (rule_numbered rules) (λ by. TextCounts (enough_by by) (sheet_of_text (admits_by by) text.now) source times) (Unit {0})) result }
{
    answer(settle_times_under(heap, rules, text, source, times))
}
