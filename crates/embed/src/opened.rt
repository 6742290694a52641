//! The sheet of a text.
ghost use Rattle.embed.specs.Opened.{Opens};

use crate::failure::Failure;
use records::entry::Need;
use records::load::load;
use report::MAX_NEEDS;
use rules::RuleSet;
use sheet::drawn::Drawn;
use std::alloc::Global;

/// The sheet that a text says, under these rules; its needs are read and let go.
// the questions take heap, rules and text, not a struct of them: it would only be made to be taken apart here
pub fn open_text<R: RuleSet + Drop>(
    heap: Global,
    rules: R,
    text: &[u8],
) -> Result<Drawn<R>, Failure>
    ensures { Opens (R.RuleSet.admitted rules) rules text.now result }
{
    let mut sheet = Drawn::open(heap, rules)?;
    let mut slots = [Need::default(); MAX_NEEDS];
    load(text, &mut sheet, &mut slots)?;
    Ok(sheet)
}
