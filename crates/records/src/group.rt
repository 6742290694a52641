//! Groups of fields: one to eight of them end a delay or a limit.
ghost use Rattle.std.specs.Prelude.{◌≡◌, ℕ, ◌+◌, ◌*◌, ◌^◌, ◌<◌, ◌≤◌, List, [], length, IfOk, Ok, Err, Result, MatchResult};
ghost use Rattle.std.specs.Option.{ok_or};
ghost use Rattle.records_fault.specs.declared.fault.LoadFault.{LoadFault};
ghost use Rattle.records_fault.specs.declared.fault.RecordFault.TheVariants.{FieldCount};
ghost use Rattle.records.specs.Entries.{groups, groups_from, input_at, term_at};
ghost use Rattle.records.specs.Readers.{names_for, fields_in};

use crate::entry::Input;
use crate::reader::LineReader;
use arrayvec::ArrayVec;
use records_fault::fault::{LoadFault, RecordFault};
use rules::RuleSet;
use timing::bound::Term;

/// What a group of fields says.
pub(crate) trait Group: Default + Drop {
    ghost WIDTH: { ℕ };

    /// How many fields a group has.
    const WIDTH: usize;

    /// What the group from a field on says, on a line among such events.
    ghost said_at: { List (List ℕ) → ℕ → List (List ℕ) → ℕ → Result Self LoadFault };

    /// Reads the group from the field with index `j` on.
    fn read<R: RuleSet>(line: &LineReader<R>, j: usize) -> Result<Self, LoadFault>
        requires { (j + WIDTH ≤ length (fields_in line.now)) × (j + WIDTH < 2 ^ 64) }
        ensures { result ≡ said_at (names_for line.now) line.now.line.number (fields_in line.now) j };
}

/// FROM LOW HIGH.
impl Group for Input {
    ghost WIDTH = { 3 };

    const WIDTH: usize = 3;

    ghost said_at = { input_at };

    fn read<R: RuleSet>(line: &LineReader<R>, j: usize) -> Result<Input, LoadFault> {
        let from = line.event(j)?;
        let low = line.side(j + 1)?;
        let high = line.delay(j + 2)?;
        Ok(Input { from, low, high })
    }
}

/// FROM HIGH.
impl Group for Term {
    ghost WIDTH = { 2 };

    const WIDTH: usize = 2;

    ghost said_at = { term_at };

    fn read<R: RuleSet>(line: &LineReader<R>, j: usize) -> Result<Term, LoadFault> {
        let from = line.event(j)?;
        let high = line.delay(j + 1)?;
        Ok(Term {
            from,
            delay: i64::from(high),
        })
    }
}

impl<'a, R: RuleSet> LineReader<'a, R> {
    // How many groups follow the first fields.
    pub(crate) fn count_groups<G: Group>(&self, first: usize) -> Result<usize, RecordFault>
        requires { (1 ≤ G.WIDTH) × (first + 8 * G.WIDTH < 2 ^ 64) }
        ensures value { result ≡ ok_or (groups first G.WIDTH (length (fields_in self.now))) (FieldCount self.now.line.number) }
        ensures fields { IfOk result (λ count. (1 ≤ count) × (count ≤ 8) × (first + G.WIDTH * count ≡ length (fields_in self.now))) }
    {
        let fields = self.line.count();
        if fields < first + G::WIDTH
            || fields > first + 8 * G::WIDTH
            || (fields - first) % G::WIDTH != 0
        {
            return Err(RecordFault::FieldCount {
                line: self.line.number,
            });
        }
        Ok((fields - first) / G::WIDTH)
    }

    // What so many groups say, after the first fields.
    pub(crate) fn groups<G: Group>(
        &self,
        first: usize,
        count: usize,
    ) -> Result<ArrayVec<G, 8>, LoadFault>
        requires { (count ≤ 8) × (first + G.WIDTH * count ≤ length (fields_in self.now)) × (first + G.WIDTH * count < 2 ^ 64) }
        ensures many { IfOk result (λ said. length said.items ≡ count) }
        ensures said { MatchResult result (λ said. groups_from (G.said_at (names_for self.now) self.now.line.number (fields_in self.now)) G.WIDTH count first [] ≡ Ok said.items)
            (λ fault. groups_from (G.said_at (names_for self.now) self.now.line.number (fields_in self.now)) G.WIDTH count first [] ≡ Err fault) }
    {
        let mut said = ArrayVec::new();
        // by index: the groups are places on the line, and not items of a list
        for i in 0..count {
            said.push(G::read(self, first + G::WIDTH * i)?);
        }
        Ok(said)
    }
}
