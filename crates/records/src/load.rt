//! Load: a text into a new sheet and blank slots.
ghost use Rattle.std.specs.Prelude.{◌≡◌, ◌≤◌, map, length};
ghost use Rattle.timing.specs.Bounds.{term_of};
ghost use Rattle.sheet.specs.Model.{sheet_of};
ghost use Rattle.records.specs.Meanings.{LinearMeans, DelayMeans, LimitMeans};
ghost use Rattle.records.specs.Entries.{high_term};
ghost use Rattle.records.specs.Refusals.{at_line};
ghost use Rattle.records.specs.Loads.{Blank, loaded, answer_of, sheet_after, slots_after};

use crate::entry::{Delay, Entry, Input, Linear, Need};
use crate::line::read_line;
use arrayvec::ArrayVec;
use records_fault::fault::{LoadFault, RecordFault};
use rules::RuleSet;
use sheet::drawn::Drawn;
use sheet::fault::CallFault;
use text::checks::check_whole;
use text::lines::Line;
use text::name::Name;
use text::reader::Reader;
use timing::bound::Term;

/// A load while it goes on: a sheet, and slots of which the first `used` hold needs and the rest are blank.
#[derive(Drop)]
struct Loading<'a, R: RuleSet> {
    sheet: &'a mut Drawn<R>,
    slots: &'a mut [Need],
    // a count beside the slots: they are lent, a fixed number of them, by the caller
    used: usize,
    // the number of the line that is read; 0 before the first
    line: usize,
    ghost within: { used ≤ length slots.now },
    ghost rest: { Blank slots.now used },
}

// What a bound's answer is to the line that adds it: of a bound among the sheet's events only two refusals are left.
fn at_line(answer: Result<usize, CallFault>, line: usize) -> Result<(), LoadFault>
    ensures { result ≡ at_line line answer }
{
    // `match`, not `map_err`: the number goes too, and one `match` says both
    match answer {
        Ok(_) => Ok(()),
        Err(CallFault::NotAdmitted) => Err(LoadFault::NotAdmitted { line }),
        Err(_) => Err(LoadFault::TooManyBounds { line }),
    }
}

// The terms FROM + HIGH of the inputs.
fn high_terms(inputs: &[Input]) -> ArrayVec<Term, 8>
    requires { length inputs.now ≤ 8 }
    ensures { map term_of result.items ≡ map high_term inputs.now }
{
    let mut terms = ArrayVec::new();
    for input in inputs {
        terms.push(Term {
            from: input.from,
            delay: i64::from(input.high),
        });
    }
    terms
}

impl<'a, R: RuleSet> Loading<'a, R> {
    ghost use Rattle.std.specs.Prelude.{◌≡◌, [], ◌∷◌, length, replicate};
    ghost use Rattle.text.specs.Spelled.{spelled};
    ghost use Rattle.sheet.specs.Plain.{new_sheet};
    ghost use Rattle.records.specs.Entries.{given_bound, low_bound, low_bounds, linear_bounds, delay_bounds, limit_bound, an_event, some_bounds, a_need};
    ghost use Rattle.records.specs.Reads.{said_by, Fitting};
    ghost use Rattle.records.specs.Loads.{line_adds, start, blank};
    ghost use Rattle.records.specs.Loadings.{names_in, state_in, KeepsPlace, Adds, AddsSaid};

    // A load of a text into a new sheet and blank slots: these, made so.
    fn new(sheet: &'a mut Drawn<R>, slots: &'a mut [Need]) -> Loading<'a, R>
        ensures starts { state_in result ≡ start }
        ensures used { result.used ≡ 0 }
        ensures line { result.line ≡ 0 }
        ensures sheet { result.sheet.ghost_name ≡ sheet.entry.ghost_name }
        ensures slots { result.slots.ghost_name ≡ slots.entry.ghost_name }
        ensures rules { result.sheet.now.rules ≡ sheet.old.rules }
        ensures room { length result.slots.now ≡ length slots.old }
    {
        sheet.clear();
        slots.fill(Need::default());
        Loading {
            sheet,
            slots,
            used: 0,
            line: 0,
        }
    }

    fn add_event(&mut self, name: &Name) -> Result<(), LoadFault>
        requires { Fitting (names_in self.old) (an_event (spelled name.now)) }
        ensures { AddsSaid (an_event (spelled name.now)) result self.old self.new }
    {
        // a match, not `map_err`: the check finds what holds after it in each arm, and not through the call
        match self.sheet.event(name.as_bytes()) {
            Ok(_) => Ok(()),
            Err(_) => Err(LoadFault::TooManyEvents { line: self.line }),
        }
    }

    fn add_bound(&mut self, kind: u8, k: u8, to: usize, terms: &[Term]) -> Result<(), LoadFault>
        requires { Fitting (names_in self.old) (some_bounds (limit_bound kind k to terms.now ∷ [])) }
        ensures { AddsSaid (some_bounds (limit_bound kind k to terms.now ∷ [])) result self.old self.new }
    {
        at_line(self.sheet.bound(kind, k, to, terms), self.line)
    }

    // TO ≤ FROM + DELAY, where it is given.
    fn add_given(&mut self, to: usize, from: usize, delay: Option<i64>) -> Result<(), LoadFault>
        requires { Fitting (names_in self.old) (some_bounds (given_bound to from delay)) }
        ensures { AddsSaid (some_bounds (given_bound to from delay)) result self.old self.new }
    {
        match delay {
            Some(delay) => self.add_bound(0, 0, to, &[Term { from, delay }]),
            None => Ok(()),
        }
    }

    // FROM ≤ TO - LOW, where LOW is given.
    fn add_low(&mut self, from: usize, to: usize, low: Option<i32>) -> Result<(), LoadFault>
        requires { Fitting (names_in self.old) (some_bounds (low_bound from to low)) }
        ensures { AddsSaid (some_bounds (low_bound from to low)) result self.old self.new }
    {
        self.add_given(from, to, low.map(|low| -i64::from(low)))
    }

    fn add_linear(&mut self, l: Linear) -> Result<(), LoadFault>
        requires { Fitting (names_in self.old) (some_bounds (linear_bounds l.from l.to l.low l.high)) }
        ensures { AddsSaid (some_bounds (linear_bounds l.from l.to l.low l.high)) result self.old self.new }
    {
        self.add_low(l.from, l.to, l.low)?;
        self.add_given(l.to, l.from, l.high.map(i64::from))
    }

    // Each FROM ≤ TO - LOW, where LOW is given.
    fn add_lows(&mut self, to: usize, inputs: &[Input]) -> Result<(), LoadFault>
        requires { Fitting (names_in self.old) (some_bounds (low_bounds to inputs.now)) }
        ensures { AddsSaid (some_bounds (low_bounds to inputs.now)) result self.old self.new }
    {
        for input in inputs {
            self.add_low(input.from, to, input.low)?;
        }
        Ok(())
    }

    fn add_delay(&mut self, d: &Delay) -> Result<(), LoadFault>
        requires { Fitting (names_in self.old) (some_bounds (delay_bounds d.now.to d.now.inputs.items)) }
        ensures { AddsSaid (some_bounds (delay_bounds d.now.to d.now.inputs.items)) result self.old self.new }
    {
        let terms = high_terms(&d.inputs);
        self.add_bound(0, 0, d.to, &terms)?;
        self.add_lows(d.to, &d.inputs)
    }

    fn add_need(&mut self, need: Need) -> Result<(), LoadFault>
        ensures { AddsSaid (a_need need) result self.old self.new }
    {
        if self.used == self.slots.len() {
            return Err(LoadFault::NoSlot { line: self.line });
        }
        self.slots[self.used] = need;
        self.used += 1;
        Ok(())
    }

    // What an entry says.
    fn add(&mut self, entry: &Entry) -> Result<(), LoadFault>
        requires { Fitting (names_in self.old) (said_by entry.now) }
        ensures { AddsSaid (said_by entry.now) result self.old self.new }
    {
        match entry {
            Entry::Event(name) => self.add_event(name),
            Entry::Linear(linear) => self.add_linear(*linear),
            Entry::Delay(delay) => self.add_delay(delay),
            Entry::Limit(l) => self.add_bound(l.kind, l.k, l.to, &l.terms),
            Entry::Need(need) => self.add_need(*need),
        }
    }

    fn add_line(&mut self, line: Line) -> Result<(), LoadFault>
        ensures adds { Adds (line_adds (R.RuleSet.admitted self.old.sheet.now.rules) (length self.old.slots.now) line.entry.number (state_in self.old) line.entry.bytes.now) result self.old self.new }
        ensures line { self.new.line ≡ line.entry.number }
    {
        self.line = line.number;
        let entry = read_line(self.sheet, line)?;
        self.add(&entry)
    }

    // The whole text, into a new sheet and blank slots.
    fn add_text(&mut self, text: &[u8]) -> Result<(), LoadFault>
        requires { state_in self.old ≡ start }
        ensures { Adds (loaded (R.RuleSet.admitted self.old.sheet.now.rules) (length self.old.slots.now) text.now) result self.old self.new }
    {
        check_whole(text).map_err(RecordFault::from)?;
        for line in Reader::new(text) {
            self.add_line(line)?;
        }
        Ok(())
    }

    // Makes the sheet new, and every slot blank.
    fn clear(&mut self)
        ensures sheet { sheet_of self.new.sheet.now ≡ new_sheet }
        ensures slots { self.new.slots.now ≡ replicate (length self.old.slots.now) blank }
        ensures same { KeepsPlace self.old self.new }
    {
        self.sheet.clear();
        self.slots.fill(Need::default());
        self.used = 0;
    }
}

/// Reads a text into the sheet, which is made new first and keeps its rule set, and its needs into the slots, which
/// are blanked first. Answers how many needs it read. On a fault the sheet is new and every slot is blank.
pub fn load<R: RuleSet>(
    text: &[u8],
    sheet: &mut Drawn<R>,
    slots: &mut [Need],
) -> Result<usize, LoadFault>
    ensures answer { result ≡ answer_of (loaded (R.RuleSet.admitted sheet.old.rules) (length slots.old) text.now) }
    ensures sheet { sheet_of sheet.new ≡ sheet_after (loaded (R.RuleSet.admitted sheet.old.rules) (length slots.old) text.now) }
    ensures slots { slots.new ≡ slots_after (length slots.old) (loaded (R.RuleSet.admitted sheet.old.rules) (length slots.old) text.now) }
    ensures keeps { sheet.new.rules ≡ sheet.old.rules }
    ensures linear { LinearMeans (R.RuleSet.suffices sheet.old.rules) }
    ensures delay { DelayMeans (R.RuleSet.suffices sheet.old.rules) }
    ensures limit { LimitMeans (R.RuleSet.suffices sheet.old.rules) }
{
    let mut loading = Loading::new(sheet, slots);
    match loading.add_text(text) {
        Ok(()) => Ok(loading.used),
        Err(fault) => {
            loading.clear();
            Err(fault)
        }
    }
}
