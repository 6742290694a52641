//! Write: a sheet as text, into bytes handed in.
ghost use Rattle.std.specs.Prelude.{◌≡◌, ◌<◌, length};
ghost use Rattle.sheet.specs.Model.{sheet_of};
ghost use Rattle.records_write.specs.Writes.{written, wrote_answer, wrote_bytes, LoadsBack};
ghost use Rattle.records_write.specs.Made.{MadeLoadsBack};

use crate::page::Page;
use records_fault::fault::WriteRefusal;
use rules::RuleSet;
use sheet::drawn::Drawn;

/// Puts the sheet out as text into the bytes handed in: a line for each event, then a limit line for each bound.
/// Answers the byte count; bytes after it stay. Where there are too few, none is written.
pub fn write<R: RuleSet>(sheet: &Drawn<R>, out: &mut [u8]) -> Result<usize, WriteRefusal>
    ensures answer { result ≡ wrote_answer (written (sheet_of sheet.now)) out.old }
    ensures bytes { out.new ≡ wrote_bytes (written (sheet_of sheet.now)) out.old }
    ensures short { length (written (sheet_of sheet.now)) < 65536 }
    ensures back { LoadsBack (R.RuleSet.admitted sheet.now.rules) (sheet_of sheet.now) }
    ensures made { MadeLoadsBack (R.RuleSet.admitted sheet.now.rules) (sheet_of sheet.now) }
{
    let mut page = Page::new(sheet.names());
    page.put_events();
    page.put_bounds(sheet.bounds());
    page.copy_out(out)
}
