//! What is found in a sheet: its knot where it is contradictory, and else the verdicts on its needs.
ghost use Rattle.std.specs.Prelude.{◌≡◌, [], ◌∷◌, ◌++◌, length, Some, codes, OnOk};
ghost use Rattle.std.specs.List.{AllByRecursion};
ghost use Rattle.std.specs.Option.{option_map, unwrap_or};
ghost use Rattle.text.specs.Spelled.{spelled, digits_of};
ghost use Rattle.rules.specs.Sets.{vote_enough};
ghost use Rattle.sheet.specs.Model.{sheet_of};
ghost use Rattle.settle.specs.Meaning.{Consistent};
ghost use Rattle.report.specs.Known.{Known};
ghost use Rattle.report.specs.Report.{Puts, NeedsPrinted, Findings};
ghost use Rattle.settle.specs.Model.{standing, read_of, knot_of};
ghost use Rattle.report.specs.Lines.{printed, knot_lines};
ghost use Rattle.report.specs.Puts.{said_yes, said_contradictory, place_put, places_put, verdict_word, verdict_line, need_put_by};

use crate::line::put_line;
use records::entry::Need;
use rules::Vote;
use settle::reading::Reading;
use settle::settled::{Settled, settle};
use sheet::drawn::Drawn;
use sheet::fault::Refusal;
use std::alloc::AllocError;
use text::name::Name;
use text::written::Numeral;

// the functions here take the text and the settled sheet apart, and no struct holds both: the sheet changes with each need

/// Adds the lines of the bounds in the knot.
fn put_knot(out: &mut Vec<u8>, settled: &Settled<Vote>) -> Result<(), AllocError>
    ensures { OnOk result (out.new.items ≡ out.old.items ++ knot_lines (λ i. said_yes (knot_of settled.now i)) (length (standing settled.now).bounds)) }
{
    // over the numbers, which are what is printed
    for number in 0..settled.sheet().bound_count() {
        if settled.knot(number).unwrap_or(false) {
            let number = Numeral::natural(number as u64);
            put_line(out, b"knot", &[number.as_bytes()])?;
        }
    }
    Ok(())
}

/// Adds the place of an event, by its name and what is read of it.
fn put_place(
    out: &mut Vec<u8>,
    name: &Name,
    read: Result<Reading, Refusal>,
) -> Result<(), AllocError>
    ensures { OnOk result (out.new.items ≡ out.old.items ++ place_put (Some (spelled name.now)) read) }
{
    let Ok(reading) = read else {
        return Ok(());
    };
    let place = Numeral::signed(reading.place);
    put_line(out, b"at", &[name.as_bytes(), place.as_bytes()])
}

/// Adds the places of all events.
fn put_places(out: &mut Vec<u8>, settled: &Settled<Vote>) -> Result<(), AllocError>
    ensures { OnOk result (out.new.items ≡ out.old.items ++ places_put (standing settled.now).names (read_of settled.now) (length (standing settled.now).names)) }
{
    for (event, name) in settled.sheet().names().iter().enumerate() {
        put_place(out, name, settled.read(event))?;
    }
    Ok(())
}

/// The word for a verdict.
fn verdict_word(met: bool) -> &'static [u8]
    ensures { result.now ≡ verdict_word met }
{
    if met { b"met" } else { b"broken" }
}

/// The field of a separation.
fn separation_field(separation: &Option<Numeral>) -> &[u8]
    ensures { result.now ≡ unwrap_or (option_map digits_of separation.now) (codes "open") }
{
    separation.as_ref().map_or(b"open", Numeral::as_bytes)
}

/// Adds the line of a need, by its fields: all of one lifetime, as references in an array are.
fn put_need_fields<'a>(
    out: &mut Vec<u8>,
    from: &'a [u8],
    to: &'a [u8],
    most: &'a [u8],
    verdict: &'a [u8],
    separation: &'a [u8],
) -> Result<(), AllocError>
    ensures { OnOk result (out.new.items ≡ out.old.items ++ printed (codes "need" ∷ from.now ∷ to.now ∷ most.now ∷ verdict.now ∷ separation.now ∷ [])) }
{
    put_line(out, b"need", &[from, to, most, verdict, separation])
}

/// Adds the line of a need.
fn put_verdict(
    out: &mut Vec<u8>,
    need: &Need,
    from: &Name,
    to: &Name,
    reading: &Reading,
    met: bool,
) -> Result<(), AllocError>
    ensures { OnOk result (out.new.items ≡ out.old.items ++ verdict_line need.now.most (spelled from.now) (spelled to.now) reading.now.separation met) }
{
    let most = Numeral::signed(need.most);
    let separation = reading.separation.map(Numeral::signed);
    put_need_fields(
        out,
        from.as_bytes(),
        to.as_bytes(),
        most.as_bytes(),
        verdict_word(met),
        separation_field(&separation),
    )
}

/// Adds a need with its verdict, on the sheet settled from its FROM.
fn put_need(out: &mut Vec<u8>, settled: &Settled<Vote>, need: &Need) -> Result<(), AllocError>
    ensures { OnOk result (out.new.items ≡ out.old.items ++ need_put_by (standing settled.now) (read_of settled.now) need.now) }
{
    let names = settled.sheet().names();
    let (Some(from), Some(to)) = (names.get(need.from), names.get(need.to)) else {
        return Ok(());
    };
    let (Ok(reading), Ok(met)) = (settled.read(need.to), settled.is_met(need.to, need.most)) else {
        return Ok(());
    };
    put_verdict(out, need, from, to, &reading, met)?;
    if !met {
        put_places(out, settled)?;
    }
    Ok(())
}

/// Adds the needs of a sheet that some timetable keeps, each settled from its FROM.
fn put_needs(out: &mut Vec<u8>, sheet: Drawn<Vote>, needs: &[Need]) -> Result<(), AllocError>
    requires some { Consistent vote_enough (sheet_of sheet).bounds }
    requires known { AllByRecursion (Known (length (sheet_of sheet).names)) needs.now }
    ensures { OnOk result (Puts (NeedsPrinted (sheet_of sheet) needs.now) out.old.items out.new.items) }
{
    let mut drawn = sheet;
    for need in needs {
        let settled = settle(drawn, need.from);
        put_need(out, &settled, need)?;
        drawn = settled.reopen();
    }
    Ok(())
}

/// Whether the sheet is contradictory.
fn is_contradictory(settled: &Settled<Vote>) -> bool
    ensures { result ≡ said_contradictory (read_of settled.now 0) }
{
    matches!(settled.read(0), Err(Refusal::Contradictory))
}

/// Adds what is found in a sheet.
pub(crate) fn put_findings(
    out: &mut Vec<u8>,
    sheet: Drawn<Vote>,
    needs: &[Need],
) -> Result<(), AllocError>
    requires known { AllByRecursion (Known (length (sheet_of sheet).names)) needs.now }
    ensures { OnOk result (Puts (Findings (sheet_of sheet) needs.now) out.old.items out.new.items) }
{
    let settled = settle(sheet, 0);
    if is_contradictory(&settled) {
        put_knot(out, &settled)?;
        return Ok(());
    }
    put_needs(out, settled.reopen(), needs)?;
    Ok(())
}
