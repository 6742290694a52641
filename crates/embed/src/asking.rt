//! One question to the sheet of a text.
ghost use Rattle.std.specs.Prelude.{◌≡◌};
ghost use Rattle.sheet.specs.Model.{sheet_of};
ghost use Rattle.settle.specs.Meaning.{Judges};
ghost use Rattle.embed.specs.Opened.{sheet_of_text};
ghost use Rattle.embed.specs.Asking.{TextJudges, TextNumbers};

use crate::failure::Failure;
use crate::opened::open_text;
use records::entry::Need;
use rules::RuleSet;
use settle::settled::settle;
use sheet::drawn::Drawn;
use sheet::fault::Refusal;
use std::alloc::Global;

/// Whether a need is met.
fn judge_sheet<R: RuleSet + Drop>(sheet: Drawn<R>, need: Need) -> Result<bool, Refusal>
    ensures { Judges (R.RuleSet.suffices sheet.rules) (sheet_of sheet) need.from need.to need.most result }
{
    settle(sheet, need.from).is_met(need.to, need.most)
}

/// Loads a text and judges a need on its sheet: whether it is met.
pub fn judge_text<R: RuleSet + Drop>(
    heap: Global,
    rules: R,
    text: &[u8],
    need: Need,
) -> Result<bool, Failure>
    ensures { TextJudges (R.RuleSet.suffices rules) (sheet_of_text (R.RuleSet.admitted rules) text.now) need.from need.to need.most result }
{
    let sheet = open_text(heap, rules, text)?;
    let is_met = judge_sheet(sheet, need)?;
    Ok(is_met)
}

/// Loads a text; answers the number of the event with this name.
pub fn number_in_text<R: RuleSet + Drop>(
    heap: Global,
    rules: R,
    text: &[u8],
    name: &[u8],
) -> Result<u32, Failure>
    ensures { TextNumbers (sheet_of_text (R.RuleSet.admitted rules) text.now) name.now result }
{
    let sheet = open_text(heap, rules, text)?;
    let number = sheet.number_of(name).ok_or(Refusal::NoSuchEvent)?;
    // a u32, not a usize: any fits the i64 that C is answered, and no contract has to say that it does
    Ok(number as u32)
}
