//! What `check` prints for a text, into bytes handed in.
ghost use Rattle.embed.specs.Reporting.{TextReports};

use crate::failure::Failure;
use std::alloc::Global;
use text::copy::copy_out;

/// What `check` prints for a text; answers how many bytes that is.
pub fn report_text(heap: Global, text: &[u8], out: &mut [u8]) -> Result<usize, Failure>
    ensures { TextReports text.now out.old out.new result }
{
    let found = report::report(heap, text)?;
    copy_out(found.as_slice(), out).ok_or(Failure::TooFewBytes)
}
