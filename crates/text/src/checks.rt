//! The checks of a whole text and of all its lines.
ghost use Rattle.std.specs.Prelude.{◌≡◌};
ghost use Rattle.text.specs.Checks.{finished, whole_text, lines_bytes, text_fault, FaultExactly};
ghost use Rattle.text.specs.Split.{lines_of};

use crate::fault::TextFault;
use crate::lines::{NEWLINE, count_parts};
use crate::reader::Reader;

/// The most bytes that a text may have.
pub const MAX_BYTES: usize = 65_536;

fn is_finished(text: &[u8]) -> bool
    ensures { result ≡ finished text.now }
{
    text.last().is_none_or(|b| *b == NEWLINE)
}

/// Fault 1 or 2 where the text as a whole has one: too many bytes, or a last line without its end.
pub fn check_whole(text: &[u8]) -> Result<(), TextFault>
    ensures { result ≡ whole_text text.now }
{
    if text.len() > MAX_BYTES {
        return Err(TextFault::TooLong);
    }
    if !is_finished(text) {
        return Err(TextFault::Unfinished {
            line: count_parts(text, NEWLINE),
        });
    }
    Ok(())
}

/// Fault 3 where a line has one, the first of them.
fn check_lines(text: &[u8]) -> Result<(), TextFault>
    ensures { result ≡ lines_bytes 1 (lines_of text.now) }
{
    for line in Reader::new(text) {
        line.check_bytes()?;
    }
    Ok(())
}

/// The first fault in the bytes of a text: of the whole text, then line by line.
pub fn check_bytes(text: &[u8]) -> Result<(), TextFault>
    ensures value { result ≡ text_fault text.now }
    ensures exactly { FaultExactly text.now result }
{
    check_whole(text)?;
    check_lines(text)
}
