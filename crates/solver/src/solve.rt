//! Settling: the places of the bounds that take part, or that they are contradictory.
ghost use Rattle.std.specs.Prelude.{map, Decides};
ghost use Rattle.std.specs.List.{AllByRecursion};
ghost use Rattle.timing.specs.Bounds.{bound_of};
ghost use Rattle.timing.specs.Timetables.{times, KeepsAll};
ghost use Rattle.solver.specs.Asked.{asked};
ghost use Rattle.solver.specs.Tasks.{Testable};
ghost use Rattle.solver.specs.Solutions.{Solves};

use crate::limits::MAX_EVENTS;
use crate::rise::term_sum;
use crate::task::Task;
use rules::RuleSet;

impl<'a, R: RuleSet> Task<'a, R> {
    /// The places of the chosen bounds by event number; None where no timetable keeps the bounds.
    ///
    /// The rise ends at a timetable that none passes. If it keeps the chosen bounds it is the places; if it breaks one,
    /// no timetable keeps them all.
    // an array of 64, not a Vec: only opening a sheet may want memory
    pub fn solve(&self) -> Option<[i64; MAX_EVENTS]>
        ensures { let task = asked self.now in Solves task.meaning task.events task.source task.bounds result }
    {
        let top = self.rise()?;
        // an if, not `then_some`: through that call the proof did not close
        if self.keeps_all(&top) {
            Some(top)
        } else {
            None
        }
    }

    // `testable` is a fact of this timetable and each bound together, and so no invariant of either
    /// Does the timetable keep all chosen bounds?
    fn keeps_all(&self, timetable: &[i64; MAX_EVENTS]) -> bool
        requires { AllByRecursion (Testable timetable.now) (map bound_of self.now.sheet.now.bounds.now) }
        ensures { let task = asked self.now in Decides result (KeepsAll task.meaning task.bounds (times timetable.now)) }
    {
        let rules = self.sheet.rules;
        let bounds = self.sheet.bounds;
        let chosen = self.chosen;
        // loops with labels, as in a phase: a bound is left as soon as its terms are enough
        'bounds: for (i, b) in bounds.iter().enumerate() {
            let takes_part = chosen[i];
            if !takes_part {
                continue 'bounds;
            }
            let to = b.to();
            let kind = b.kind();
            let k = b.k();
            let terms = b.terms();
            // a cast, proved to fit
            let count = terms.len() as u8;
            let mut set = 0u8;
            for (j, term) in terms.iter().enumerate() {
                if timetable[to] <= term_sum(timetable, term) {
                    set |= 1 << j;
                    if rules.enough(kind, k, count, set) {
                        continue 'bounds;
                    }
                }
            }
            return false;
        }
        true
    }
}
