//! All events of a sheet, settled from one of them; or its knot.
ghost use Rattle.std.specs.Prelude.{◌≡◌, length, EachIndex};
ghost use Rattle.std.specs.List.{HoldsAt};
ghost use Rattle.sheet.specs.Model.{sheet_of};
ghost use Rattle.settle.specs.Model.{read_of, knot_of};
ghost use Rattle.embed.specs.Opened.{sheet_of_text};
ghost use Rattle.embed.specs.Settling.{slot_said, flag_said, fault_noted, handed, SheetSettles, TextSettles};

use crate::failure::Failure;
use crate::opened::open_text;
use crate::slots::{EventReading, FaultPlace};
use rules::RuleSet;
use settle::settled::{Settled, settle};
use sheet::drawn::Drawn;
use sheet::fault::Refusal;
use std::alloc::Global;

/// What is read of an event, as it is handed out.
fn slot<R: RuleSet>(settled: &Settled<R>, event: usize) -> EventReading
    ensures { result ≡ slot_said (read_of settled.now event) }
{
    settled
        .read(event)
        .map(EventReading::from)
        .unwrap_or_default()
}

/// Whether a bound is in the knot, as it is handed out: a byte, for C.
fn flag<R: RuleSet>(settled: &Settled<R>, bound: usize) -> u8
    ensures { result ≡ flag_said (knot_of settled.now bound) }
{
    u8::from(settled.knot(bound).unwrap_or(false))
}

/// Fills each slot with what is made for its number.
fn fill<T: Drop, F: Fn(usize) -> T>(slots: &mut [T], make: F)
    requires { F.IsAlwaysCallable make }
    ensures { EachIndex slots.new (λ k. HoldsAt (F.post make k) slots.new k) }
{
    for (number, slot) in slots.iter_mut().enumerate() {
        *slot = make(number);
    }
}

/// Notes where a fault of the text stands, if a slot was handed in for it.
fn note_fault(slots: &mut [FaultPlace], failure: Failure)
    ensures { slots.new ≡ fault_noted failure slots.old }
{
    if let Failure::Text(fault) = failure
        && let Some(slot) = slots.first_mut()
    {
        *slot = FaultPlace::from(fault);
    }
}

/// Settles a sheet and fills the slots of its events, or those of its bounds where it is contradictory.
fn settle_sheet<R: RuleSet + Drop>(
    sheet: Drawn<R>,
    source: usize,
    events: &mut [EventReading],
    knot: &mut [u8],
) -> Result<u32, Failure>
    ensures { SheetSettles (R.RuleSet.suffices sheet.rules) (sheet_of sheet) source events.old knot.old events.new knot.new result }
{
    let count = sheet.event_count();
    let bounds = sheet.bound_count();
    if source >= count {
        return Err(Failure::Sheet(Refusal::NoSuchSource));
    }
    if events.len() < count || knot.len() < bounds {
        return Err(Failure::TooFewSlots);
    }
    let settled = settle(sheet, source);
    if let Err(refusal) = settled.read(source) {
        fill(&mut knot[..bounds], |bound| flag(&settled, bound));
        return Err(Failure::Sheet(refusal));
    }
    fill(&mut events[..count], |event| slot(&settled, event));
    // a u32, as an event's number
    Ok(count as u32)
}

/// Loads a text and settles its sheet; answers how many events it has.
// three lent slices, not a struct of them: a contract would name what is left in each by its place in nested pairs
pub fn settle_text<R: RuleSet + Drop>(
    heap: Global,
    rules: R,
    text: &[u8],
    source: usize,
    events: &mut [EventReading],
    knot: &mut [u8],
    fault: &mut [FaultPlace],
) -> Result<u32, Failure>
    ensures { TextSettles (R.RuleSet.suffices rules) (sheet_of_text (R.RuleSet.admitted rules) text.now) source (handed events.old knot.old fault.old) (handed events.new knot.new fault.new) result }
{
    match open_text(heap, rules, text) {
        Ok(sheet) => settle_sheet(sheet, source, events, knot),
        Err(failure) => {
            note_fault(fault, failure);
            Err(failure)
        }
    }
}
