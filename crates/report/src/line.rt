//! Lines of fields.
ghost use Rattle.std.specs.Prelude.{◌≡◌, ◌∷◌, ◌++◌, map, OnOk};
ghost use Rattle.report.specs.Lines.{fault_line, printed};

use records_fault::fault::LoadFault;
use std::alloc::AllocError;
use text::lines::{NEWLINE, TAB};
use text::written::Numeral;

// slices and numerals, not write!: into a Vec its error is an io::Error and not AllocError, and a name is bytes
/// Adds a line: its first word, the other fields with a tab before each, and its end.
pub(crate) fn put_line(out: &mut Vec<u8>, word: &[u8], fields: &[&[u8]]) -> Result<(), AllocError>
    ensures { OnOk result (out.new.items ≡ out.old.items ++ printed (word.now ∷ map (λ x. x.now) fields.now)) }
{
    out.extend_from_slice(word)?;
    for field in fields {
        out.push(TAB)?;
        out.extend_from_slice(field)?;
    }
    out.push(NEWLINE)?;
    Ok(())
}

/// Adds the line that tells a fault.
pub(crate) fn put_fault(out: &mut Vec<u8>, fault: LoadFault) -> Result<(), AllocError>
    ensures { OnOk result (out.new.items ≡ out.old.items ++ fault_line fault) }
{
    let place = fault.place();
    let number = Numeral::natural(u64::from(fault.number()));
    // casts: std has no From of a usize
    let line = Numeral::natural(place.line as u64);
    let field = Numeral::natural(place.field as u64);
    put_line(
        out,
        b"fault",
        &[number.as_bytes(), line.as_bytes(), field.as_bytes()],
    )
}
