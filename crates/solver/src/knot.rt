//! The knot of a contradictory sheet, by deletion.
ghost use Rattle.std.specs.Prelude.{◌≡◌, ℕ, ◌<◌, ◌≤◌, true, false, map, length};
ghost use Rattle.timing.specs.Bounds.{bound_of};
ghost use Rattle.timing.specs.Knots.{Knot};
ghost use Rattle.timing.specs.Timetables.{Timetable, Contradictory, KeepsAll};
ghost use Rattle.solver.specs.Tasks.{flag, First, taking_part};

use crate::limits::MAX_BOUNDS;
use crate::task::{Sheet, Task};
use rules::RuleSet;

impl<'a, R: RuleSet> Sheet<'a, R> {
    /// The bounds in the knot: all are tried in number order, and one is left out when the bounds remaining still admit
    /// no timetable.
    // an array of 256, not a Vec: only opening a sheet may want memory
    pub fn knot(&self) -> [bool; MAX_BOUNDS]
        ensures knot { Knot (R.RuleSet.suffices self.now.rules.now) (map bound_of self.now.bounds.now) (flag result) }
        ensures past { (j : ℕ) → length self.now.bounds.now ≤ j → flag result j ≡ false }
    {
        let mut standing = first_flags(self.bounds.len());
        // by number, since each trial reads the flags of all bounds
        for i in 0..self.bounds.len() {
            standing[i] = false;
            standing[i] = self.admit_one(&standing);
        }
        standing
    }

    /// Do the standing bounds admit a timetable?
    fn admit_one(&self, standing: &[bool; MAX_BOUNDS]) -> bool
        requires { 0 < self.now.events }
        ensures one { result ≡ true → (t : Timetable) × KeepsAll (R.RuleSet.suffices self.now.rules.now) (taking_part standing.now self.now.bounds.now) t }
        ensures none { result ≡ false → Contradictory (R.RuleSet.suffices self.now.rules.now) (taking_part standing.now self.now.bounds.now) }
    {
        let task = Task {
            sheet: self,
            chosen: standing,
            source: 0,
        };
        task.solve().is_some()
    }
}

/// So many flags set, and the others not.
fn first_flags(count: usize) -> [bool; MAX_BOUNDS]
    requires { count ≤ 256 }
    ensures { First count result }
{
    let mut flags = [false; MAX_BOUNDS];
    flags[..count].fill(true);
    flags
}
