ghost use Rattle.std.specs.Prelude.{◌≡◌, map, length, IfOk};
ghost use Rattle.std.specs.Option.{option_map};
ghost use Rattle.std.specs.Result.{result_err};
ghost use Rattle.std.specs.List.{slice_get};
ghost use Rattle.text.specs.Spelled.{spelled};
ghost use Rattle.timing.specs.Bounds.{term_of, bound_of};
ghost use Rattle.sheet.specs.Plain.{new_sheet, number_in, is_delay, terms_fault, event_call, bound_call, strike_call};
ghost use Rattle.sheet.specs.Model.{sheet_of, Does};

use crate::drawn::Drawn;
use crate::fault::{CallFault, Refusal};
use rules::RuleSet;
use std::alloc::{AllocError, Global};
use text::name::Name;
use timing::bound::{Bound, Term};
pub use timing::limits::{MAX_BOUNDS, MAX_DELAY, MAX_EVENTS};

/// The number of the event with this name.
// a search, not a map: only opening a sheet may want memory
fn number_in(names: &[Name], name: &[u8]) -> Option<usize>
    ensures { result ≡ number_in (map spelled names.now) name.now }
{
    names.iter().position(|known| known.is(name))
}

fn is_delay(term: &Term) -> bool
    ensures { result ≡ is_delay term.now.delay }
{
    (-MAX_DELAY..=MAX_DELAY).contains(&term.delay)
}

/// The first fault in the terms of a bound, on a sheet with so many events.
fn check_terms(events: usize, terms: &[Term]) -> Result<(), CallFault>
    ensures { result_err result ≡ terms_fault events (map term_of terms.now) }
{
    // a for, not a chain: a term has two faults, looked for in this order
    for term in terms {
        if term.from >= events {
            return Err(CallFault::NoSuchEvent);
        }
        if !is_delay(term) {
            return Err(CallFault::DelayOutOfRange);
        }
    }
    Ok(())
}

/// Whether the rule set admits the bound.
fn admits<R: RuleSet>(rules: &R, bound: &Bound) -> bool
    ensures { result ≡ R.RuleSet.admitted rules.now (bound_of bound.now).kind (bound_of bound.now).k (length (bound_of bound.now).terms) }
{
    // a cast, not try_from: a bound has at most eight terms, so there is no other case to write
    rules.admits(bound.kind(), bound.k(), bound.terms().len() as u8)
}

impl<R: RuleSet> Drawn<R> {
    /// A new sheet under these rules.
    pub fn open(heap: Global, rules: R) -> Result<Drawn<R>, AllocError>
    where
        R: Drop,
        ensures { IfOk result (λ d. (sheet_of d ≡ new_sheet) × (d.rules ≡ rules)) }
    {
        let names = Vec::with_capacity(heap, MAX_EVENTS)?;
        let bounds = Vec::with_capacity(heap, MAX_BOUNDS)?;
        Ok(Drawn {
            rules,
            names,
            bounds,
        })
    }

    /// Adds an event at the end, and answers its number.
    pub fn event(&mut self, name: &[u8]) -> Result<usize, CallFault>
        ensures { Does (event_call (sheet_of self.old) name.now) result self.old self.new }
    {
        let own = Name::new(name).ok_or(CallFault::MalformedName)?;
        if self.number_of(name).is_some() {
            return Err(CallFault::NameTaken);
        }
        let number = self.names.len();
        if number >= MAX_EVENTS {
            return Err(CallFault::TooManyEvents);
        }
        self.names.push_reserved(own);
        Ok(number)
    }

    /// Adds a bound at the end, and answers its number.
    pub fn bound(&mut self, kind: u8, k: u8, to: usize, terms: &[Term]) -> Result<usize, CallFault>
        ensures { Does (bound_call (R.RuleSet.admitted self.old.rules) (sheet_of self.old) (record { to = to; kind = kind; k = k; terms = map term_of terms.now })) result self.old self.new }
    {
        // no rule set admits a bound with no terms or with more than eight
        let own = Bound::new(to, kind, k, terms).ok_or(CallFault::NotAdmitted)?;
        if !admits(&self.rules, &own) {
            return Err(CallFault::NotAdmitted);
        }
        let events = self.names.len();
        if to >= events {
            return Err(CallFault::NoSuchEvent);
        }
        check_terms(events, terms)?;
        let number = self.bounds.len();
        if number >= MAX_BOUNDS {
            return Err(CallFault::TooManyBounds);
        }
        self.bounds.push_reserved(own);
        Ok(number)
    }

    /// Removes a bound, so that the numbers of later ones fall by one, and answers how many are left.
    pub fn strike(&mut self, number: usize) -> Result<usize, Refusal>
        ensures { Does (strike_call (sheet_of self.old) number) result self.old self.new }
    {
        if number >= self.bounds.len() {
            return Err(Refusal::NoSuchBound);
        }
        self.bounds.remove(number);
        Ok(self.bounds.len())
    }

    /// Makes the sheet new again, under the same rules.
    pub fn clear(&mut self)
        ensures new { sheet_of self.new ≡ new_sheet }
        ensures keeps { self.new.rules ≡ self.old.rules }
    {
        self.bounds.clear();
        self.names.clear();
    }

    /// How many events there are.
    pub fn event_count(&self) -> usize
        ensures { result ≡ length (sheet_of self.now).names }
    {
        self.names.len()
    }

    /// How many bounds there are.
    pub fn bound_count(&self) -> usize
        ensures { result ≡ length (sheet_of self.now).bounds }
    {
        self.bounds.len()
    }

    /// The name of an event, None where no event has that number.
    pub fn name_of(&self, event: usize) -> Option<Name>
        ensures { option_map spelled result ≡ slice_get (sheet_of self.now).names event }
    {
        self.names.get(event).copied()
    }

    /// The names of the events, by number.
    pub fn names(&self) -> &[Name]
        ensures { map spelled result.now ≡ (sheet_of self.now).names }
    {
        self.names.as_slice()
    }

    /// The number of the event with this name.
    pub fn number_of(&self, name: &[u8]) -> Option<usize>
        ensures { result ≡ number_in (sheet_of self.now).names name.now }
    {
        number_in(self.names(), name)
    }

    /// The bound with this number, None where there is none.
    pub fn bound_at(&self, number: usize) -> Option<Bound>
        ensures { option_map bound_of result ≡ slice_get (sheet_of self.now).bounds number }
    {
        self.bounds.get(number).copied()
    }

    /// The bounds, by number.
    pub fn bounds(&self) -> &[Bound]
        ensures { map bound_of result.now ≡ (sheet_of self.now).bounds }
    {
        self.bounds.as_slice()
    }

    /// The rules that the sheet was opened with.
    pub fn rules(&self) -> &R
        ensures { result.now ≡ self.now.rules }
    {
        &self.rules
    }
}
