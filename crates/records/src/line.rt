//! What a line says, where a sheet has its events.
ghost use Rattle.std.specs.Prelude.{◌≡◌};
ghost use Rattle.std.specs.List.{list_all};
ghost use Rattle.text.specs.Checks.{line_bytes};
ghost use Rattle.sheet.specs.Model.{sheet_of};
ghost use Rattle.records.specs.Entries.{sides_agree, input_agrees};
ghost use Rattle.records.specs.Entries.{event_says, linear_says, delay_says, limit_says, need_says, fields_say, line_says};
ghost use Rattle.records.specs.Readers.{names_for, fields_in};
ghost use Rattle.records.specs.Reads.{Reads};
ghost use Rattle.records.specs.Words.{word_of};

use crate::entry::{Delay, Entry, Input, Limit, Linear, Need};
use crate::reader::LineReader;
use records_fault::fault::{LoadFault, RecordFault};
use rules::RuleSet;
use sheet::drawn::Drawn;
use text::lines::Line;
use timing::bound::Term;

// an enum between the bytes and what is read: with the methods in the arms of the match on bytes, two goals stayed open
// The word that begins a record.
#[derive(Clone, Copy, PartialEq, Eq)]
enum Word {
    Event,
    Linear,
    Delay,
    Limit,
    Need,
}

impl Word {
    fn new(bytes: &[u8]) -> Option<Word>
        ensures { result ≡ word_of bytes.now }
    {
        match bytes {
            b"event" => Some(Word::Event),
            b"linear" => Some(Word::Linear),
            b"delay" => Some(Word::Delay),
            b"limit" => Some(Word::Limit),
            b"need" => Some(Word::Need),
            _ => None,
        }
    }
}

// One side is given, and LOW is not above HIGH.
fn sides_agree(low: Option<i32>, high: Option<i32>) -> bool
    ensures { result ≡ sides_agree low high }
{
    match (low, high) {
        (None, None) => false,
        (Some(low), Some(high)) => low <= high,
        _ => true,
    }
}

// LOW is above HIGH in no input.
fn all_agree(inputs: &[Input]) -> bool
    ensures { result ≡ list_all input_agrees inputs.now }
{
    inputs
        .iter()
        .all(|input| sides_agree(input.low, Some(input.high)))
}

impl<'a, R: RuleSet> LineReader<'a, R> {
    // event NAME
    fn read_event(&self) -> Result<Entry, LoadFault>
        ensures { Reads result (event_says (names_for self.now) self.now.line.number (fields_in self.now)) }
    {
        self.expect_fields(2)?;
        let name = self.fresh_name(1)?;
        Ok(Entry::Event(name))
    }

    // linear FROM TO LOW HIGH
    fn read_linear(&self) -> Result<Entry, LoadFault>
        ensures { Reads result (linear_says (names_for self.now) self.now.line.number (fields_in self.now)) }
    {
        self.expect_fields(5)?;
        let from = self.event(1)?;
        let to = self.event(2)?;
        let low = self.side(3)?;
        let high = self.side(4)?;
        self.expect_agreement(sides_agree(low, high))?;
        Ok(Entry::Linear(Linear {
            from,
            to,
            low,
            high,
        }))
    }

    // delay TO, then one to eight of FROM LOW HIGH
    fn read_delay(&self) -> Result<Entry, LoadFault>
        ensures { Reads result (delay_says (names_for self.now) self.now.line.number (fields_in self.now)) }
    {
        let count = self.count_groups::<Input>(2)?;
        let to = self.event(1)?;
        let inputs = self.groups::<Input>(2, count)?;
        self.expect_agreement(all_agree(&inputs))?;
        Ok(Entry::Delay(Delay { to, inputs }))
    }

    // limit KIND K TO, then one to eight of FROM HIGH
    fn read_limit(&self) -> Result<Entry, LoadFault>
        ensures { Reads result (limit_says (names_for self.now) self.now.line.number (fields_in self.now)) }
    {
        let count = self.count_groups::<Term>(4)?;
        let kind = self.byte(1)?;
        let k = self.byte(2)?;
        let to = self.event(3)?;
        let terms = self.groups::<Term>(4, count)?;
        Ok(Entry::Limit(Limit { kind, k, to, terms }))
    }

    // need FROM TO MOST
    fn read_need(&self) -> Result<Entry, LoadFault>
        ensures { Reads result (need_says (names_for self.now) self.now.line.number (fields_in self.now)) }
    {
        self.expect_fields(4)?;
        let from = self.event(1)?;
        let to = self.event(2)?;
        let most = i64::from(self.most(3)?);
        Ok(Entry::Need(Need { from, to, most }))
    }

    // What the fields say, by the first word.
    fn read(&self) -> Result<Entry, LoadFault>
        ensures { Reads result (fields_say (names_for self.now) self.now.line.number (fields_in self.now)) }
    {
        match Word::new(self.field(0).bytes) {
            Some(Word::Event) => self.read_event(),
            Some(Word::Linear) => self.read_linear(),
            Some(Word::Delay) => self.read_delay(),
            Some(Word::Limit) => self.read_limit(),
            Some(Word::Need) => self.read_need(),
            None => Err(LoadFault::from(RecordFault::UnknownWord {
                line: self.line.number,
            })),
        }
    }
}

// What the line says.
pub(crate) fn read_line<R: RuleSet>(sheet: &Drawn<R>, line: Line) -> Result<Entry, LoadFault>
    ensures { Reads result (line_says (sheet_of sheet.now).names line.entry.number line.entry.bytes.now) }
{
    line.check_bytes().map_err(RecordFault::from)?;
    let reader = LineReader { sheet, line };
    reader.read()
}
