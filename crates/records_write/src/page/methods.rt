//! What is put on a page: bytes, fields, and the lines of events and bounds.
ghost use Rattle.std.specs.Prelude.{◌≡◌, [], ◌∷◌, map, decimal, slice_index_or};
ghost use Rattle.std.specs.List.{flat_map, AllByRecursion};
ghost use Rattle.text.specs.Spelled.{spelled};
ghost use Rattle.timing.specs.Bounds.{term_of, bound_of};
ghost use Rattle.records_write.specs.Shown.{shown, names_of, Puts};
ghost use Rattle.records_write.specs.Writes.{after_tabs, event_fields, term_fields, limit_fields, line_of, wrote_answer, wrote_bytes, ByteSized};

use crate::page::Page;
use arrayvec::ArrayVec;
use records_fault::fault::WriteRefusal;
use std::io::Write;
use text::copy::copy_out;
use text::name::Name;
use text::written::Numeral;
use timing::bound::{Bound, Term};

impl<'a> Page<'a> {
    pub(crate) fn new(names: &'a [Name]) -> Page<'a>
        ensures text { shown result ≡ [] }
        ensures names { result.names ≡ names.entry }
    {
        Page {
            bytes: ArrayVec::new(),
            names,
        }
    }

    // bytes, and not `write!`: names are bytes, and no error can come
    fn put(&mut self, text: &[u8])
        ensures { Puts self.old text.now self.new }
    {
        // writes what fits, and cannot fail
        let _ = self.bytes.write(text);
    }

    // A tab, and the field after it.
    fn put_field(&mut self, field: &[u8])
        ensures { Puts self.old (9 ∷ field.now) self.new }
    {
        self.put(b"\t");
        self.put(field);
    }

    fn put_event(&mut self, name: &Name)
        ensures { Puts self.old (line_of (event_fields (spelled name.now))) self.new }
    {
        self.put(b"event");
        self.put_field(name.as_bytes());
        self.put(b"\n");
    }

    // A kind or a K, as a field.
    fn put_number(&mut self, number: u8)
        ensures { Puts self.old (9 ∷ decimal number) self.new }
    {
        self.put_field(Numeral::natural(u64::from(number)).as_bytes());
    }

    // The name of an event, as a field.
    fn put_name(&mut self, event: usize)
        ensures { Puts self.old (9 ∷ slice_index_or (names_of self.old) event []) self.new }
    {
        match self.names.get(event) {
            Some(name) => self.put_field(name.as_bytes()),
            None => self.put_field(b""),
        }
    }

    // FROM HIGH, as two fields.
    fn put_term(&mut self, term: &Term)
        ensures { Puts self.old (after_tabs (term_fields (names_of self.old) (term_of term.now ∷ []))) self.new }
    {
        self.put_name(term.from);
        self.put_field(Numeral::signed(term.delay).as_bytes());
    }

    fn put_terms(&mut self, terms: &[Term])
        ensures { Puts self.old (after_tabs (term_fields (names_of self.old) (map term_of terms.now))) self.new }
    {
        for term in terms {
            self.put_term(term);
        }
    }

    fn put_bound(&mut self, bound: &Bound)
        ensures puts { Puts self.old (line_of (limit_fields (names_of self.old) (bound_of bound.now))) self.new }
        ensures bytes { ByteSized (bound_of bound.now) }
    {
        self.put(b"limit");
        self.put_number(bound.kind());
        self.put_number(bound.k());
        self.put_name(bound.to());
        self.put_terms(bound.terms());
        self.put(b"\n");
    }

    pub(crate) fn put_events(&mut self)
        ensures { Puts self.old (flat_map (λ name. line_of (event_fields name)) (names_of self.old)) self.new }
    {
        let names = self.names;
        for name in names {
            self.put_event(name);
        }
    }

    pub(crate) fn put_bounds(&mut self, bounds: &[Bound])
        ensures puts { Puts self.old (flat_map (λ b. line_of (limit_fields (names_of self.old) b)) (map bound_of bounds.now)) self.new }
        ensures bytes { AllByRecursion ByteSized (map bound_of bounds.now) }
    {
        for bound in bounds {
            self.put_bound(bound);
        }
    }

    // Copies the page out, unless there are too few bytes for it.
    pub(crate) fn copy_out(&self, out: &mut [u8]) -> Result<usize, WriteRefusal>
        ensures answer { result ≡ wrote_answer (shown self.now) out.old }
        ensures bytes { out.new ≡ wrote_bytes (shown self.now) out.old }
    {
        let text = self.bytes.as_slice();
        copy_out(text, out).ok_or(WriteRefusal::TooFewBytes)
    }
}
