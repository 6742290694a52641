//! What `check` prints for a text, as a value.
#![tactic(auto)]

mod findings;
mod line;

ghost use Rattle.std.specs.Prelude.{IfOk};
ghost use Rattle.report.specs.Report.{Reports};

use crate::findings::put_findings;
use crate::line::put_fault;
use records::entry::Need;
use records::load::load;
use rules::Vote;
use sheet::drawn::Drawn;
use std::alloc::{AllocError, Global};

/// The most needs of a text.
pub const MAX_NEEDS: usize = 64;

/// What is printed for a text, which is loaded with the vote set; want of memory is the only error.
pub fn report(heap: Global, text: &[u8]) -> Result<Vec<u8>, AllocError>
    ensures { IfOk result (λ out. Reports text.now out.items) }
{
    let mut out = Vec::new(heap);
    let mut sheet = Drawn::open(heap, Vote {})?;
    let mut slots = [Need::default(); MAX_NEEDS];
    match load(text, &mut sheet, &mut slots) {
        Ok(count) => put_findings(&mut out, sheet, &slots[..count])?,
        Err(fault) => put_fault(&mut out, fault)?,
    }
    Ok(out)
}
