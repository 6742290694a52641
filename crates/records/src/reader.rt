//! The fields of one line: a name, an event, a number, or nothing.
ghost use Rattle.std.specs.Prelude.{◌≡◌, ◌<◌, ◌==◌, if◌then◌else◌, length, ◌≤ℤ◌, IfOk, MatchResult, Ok, Err};
ghost use Rattle.text.specs.Spelled.{spelled};
ghost use Rattle.records.specs.Fields.{name_at, number_at, delay_at, side_at, byte_at, most_at, event_at, fresh_at};
ghost use Rattle.records_fault.specs.declared.fault.RecordFault.TheVariants.{FieldCount, LowAboveHigh};
ghost use Rattle.records.specs.Readers.{names_for, fields_in, field_in, here};

use records_fault::fault::{LoadFault, RecordFault};
use rules::RuleSet;
use sheet::drawn::Drawn;
use text::lines::{Field, Line};
use text::name::Name;
use text::numeral::read_numeral;

/// A line whose fields are read, for a sheet with its events.
#[derive(Drop)]
pub(crate) struct LineReader<'a, R: RuleSet> {
    pub(crate) sheet: &'a Drawn<R>,
    pub(crate) line: Line<'a>,
}

fn name(field: Field) -> Result<Name, RecordFault>
    ensures { MatchResult result (λ name. name_at field.entry.place field.entry.bytes.now ≡ Ok (spelled name)) (λ fault. name_at field.entry.place field.entry.bytes.now ≡ Err fault) }
{
    Name::new(field.bytes).ok_or(RecordFault::MalformedName(field.place))
}

fn number(field: Field, least: i32, most: i32) -> Result<i32, RecordFault>
    ensures value { result ≡ number_at least most field.entry.place field.entry.bytes.now }
    ensures range { IfOk result (λ number. (least ≤ℤ number) × (number ≤ℤ most)) }
{
    read_numeral(field.bytes, least, most).map_err(|_| RecordFault::BadNumeral(field.place))
}

// of a field, and not of its number on the line: who looks first whether it is a minus has it already
fn delay(field: Field) -> Result<i32, RecordFault>
    ensures { result ≡ delay_at field.entry.place field.entry.bytes.now }
{
    number(field, -1_000_000, 1_000_000)
}

impl<'a, R: RuleSet> LineReader<'a, R> {
    // by its number, and not from a line split beforehand: a line may have any number of fields, and none is stored
    // The field with this index, counted from 0.
    pub(crate) fn field(&self, k: usize) -> Field<'a>
        requires { k < length (fields_in self.now) }
        ensures bytes { result.bytes.now ≡ field_in self.now k }
        ensures place { result.place ≡ here self.now k }
    {
        match self.line.field(k) {
            Some(field) => field,
            None => unreachable!(),
        }
    }

    // The record is to have so many fields.
    pub(crate) fn expect_fields(&self, count: usize) -> Result<(), RecordFault>
        ensures { result ≡ (if length (fields_in self.now) == count then Ok tt else Err (FieldCount self.now.line.number)) }
    {
        if self.line.count() == count {
            Ok(())
        } else {
            Err(RecordFault::FieldCount {
                line: self.line.number,
            })
        }
    }

    // LOW is not to be above HIGH.
    pub(crate) fn expect_agreement(&self, agree: bool) -> Result<(), RecordFault>
        ensures { result ≡ (if agree then Ok tt else Err (LowAboveHigh self.now.line.number)) }
    {
        if agree {
            Ok(())
        } else {
            Err(RecordFault::LowAboveHigh {
                line: self.line.number,
            })
        }
    }

    // The event that the field names.
    pub(crate) fn event(&self, k: usize) -> Result<usize, LoadFault>
        requires { k < length (fields_in self.now) }
        ensures { result ≡ event_at (names_for self.now) (here self.now k) (field_in self.now k) }
    {
        let field = self.field(k);
        let name = name(field)?;
        self.sheet
            .number_of(name.as_bytes())
            .ok_or(LoadFault::NoSuchEvent(field.place))
    }

    // A name that no event has.
    pub(crate) fn fresh_name(&self, k: usize) -> Result<Name, LoadFault>
        requires { k < length (fields_in self.now) }
        ensures { MatchResult result (λ name. fresh_at (names_for self.now) (here self.now k) (field_in self.now k) ≡ Ok (spelled name)) (λ fault. fresh_at (names_for self.now) (here self.now k) (field_in self.now k) ≡ Err fault) }
    {
        let field = self.field(k);
        let name = name(field)?;
        // a match: an Option has no method for a fault where there is something
        match self.sheet.number_of(name.as_bytes()) {
            Some(_) => Err(LoadFault::NameTaken(field.place)),
            None => Ok(name),
        }
    }

    // one for each range that the format has, over `number`; the field with index `k` is there in each, and each asks of another `k`
    pub(crate) fn delay(&self, k: usize) -> Result<i32, RecordFault>
        requires { k < length (fields_in self.now) }
        ensures { result ≡ delay_at (here self.now k) (field_in self.now k) }
    {
        delay(self.field(k))
    }

    // A delay, or None where the field is a minus alone.
    pub(crate) fn side(&self, k: usize) -> Result<Option<i32>, RecordFault>
        requires { k < length (fields_in self.now) }
        ensures { result ≡ side_at (here self.now k) (field_in self.now k) }
    {
        let field = self.field(k);
        match field.bytes {
            b"-" => Ok(None),
            _ => Ok(Some(delay(field)?)),
        }
    }

    // A kind or a K.
    pub(crate) fn byte(&self, k: usize) -> Result<u8, RecordFault>
        requires { k < length (fields_in self.now) }
        ensures { result ≡ byte_at (here self.now k) (field_in self.now k) }
    {
        // `as`, not `u8::try_from`: a number from 0 to 255 has no other case to answer
        Ok(number(self.field(k), 0, 255)? as u8)
    }

    // How far a need may go.
    pub(crate) fn most(&self, k: usize) -> Result<i32, RecordFault>
        requires { k < length (fields_in self.now) }
        ensures { result ≡ most_at (here self.now k) (field_in self.now k) }
    {
        number(self.field(k), -63_000_000, 63_000_000)
    }
}
