//! What an editor asks of a text, each question a whole job: the text is loaded, the answer given, and what was taken
//! is freed. What a call does not fill stays as it was. The crate embed_c makes the exports for C of it.
#![tactic(auto)]

ghost use Rattle.embed.specs.Exports.{SettlesUnder, JudgesUnder, NumbersUnder};
ghost use Rattle.embed.specs.Settling.{handed};

use crate::asking::{judge_text, number_in_text};
use crate::failure::Failure;
use crate::settling::settle_text;
use crate::slots::{EventReading, FaultPlace};
// handed on: whoever asks for a verdict uses this crate alone
pub use records::entry::Need;
use std::alloc::Global;

pub mod asking;
pub mod failure;
pub mod opened;
pub mod reporting;
pub mod rule_choice;
pub mod settling;
pub mod slots;

// the number of a rule set, not a RuleChoice: C hands it in, and one that no set has is refused here

/// Loads a text under the rule set with this number and settles it from one of its events: fills a slot for each event,
/// and answers how many there are. Where the sheet is contradictory it fills a byte for each bound instead, 1 for those
/// in the knot.
pub fn settle_under(
    heap: Global,
    rules: u8,
    text: &[u8],
    source: usize,
    events: &mut [EventReading],
    knot: &mut [u8],
    fault: &mut [FaultPlace],
) -> Result<u32, Failure>
    ensures { SettlesUnder rules text.now source (handed events.old knot.old fault.old) (handed events.new knot.new fault.new) result }
{
    under!(
        rules,
        |set| settle_text(heap, set, text, source, events, knot, fault)
    )
}

/// Loads a text and judges a need on it: whether it is met.
pub fn judge_under(heap: Global, rules: u8, text: &[u8], need: Need) -> Result<bool, Failure>
    ensures { JudgesUnder rules text.now need.from need.to need.most result }
{
    under!(rules, |set| judge_text(heap, set, text, need))
}

/// Loads a text; answers the number of the event with this name.
pub fn number_under(heap: Global, rules: u8, text: &[u8], name: &[u8]) -> Result<u32, Failure>
    ensures { NumbersUnder rules text.now name.now result }
{
    under!(rules, |set| number_in_text(heap, set, text, name))
}
