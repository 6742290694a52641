//! The rise: timetables from under, phase by phase, until a phase lifts nothing.
ghost use Rattle.std.specs.Prelude.{◌≡◌, ℕ, ◌+◌, ◌<◌, ◌≤◌, true, false, ◌⊎◌, ℤ, pos, ◌+ℤ◌, ◌≤ℤ◌, ◌<ℤ◌, MatchOption};
ghost use Rattle.timing.specs.Bounds.{term_of};
ghost use Rattle.timing.specs.Timetables.{times, Contradictory};
ghost use Rattle.timing.specs.Rise.{phase_sum, Rising, Summit};
ghost use Rattle.solver.specs.Asked.{asked};
ghost use Rattle.solver.specs.Tasks.{Level, PhaseOver, Summable};

use crate::latest::latest;
use crate::limits::{FAR_MARK, LOW_MARK, MAX_EVENTS};
use crate::task::Task;
use rules::RuleSet;
use timing::bound::Term;
use timing::bound::methods::MAX_TERMS;

/// FROM's time plus the delay.
// a requires, not a type: that the sum can be formed is a fact of a timetable and a term together
pub(crate) fn term_sum(timetable: &[i64; MAX_EVENTS], term: &Term) -> i64
    requires { Summable timetable.now (term_of term.now) }
    ensures { result ≡ times timetable.now term.now.from +ℤ term.now.delay }
{
    timetable[term.from] + term.delay
}

/// A term's sum in the phase from x: a term that does not allow in x is no better than leaving TO where it is in x.
fn phase_sum(x: &[i64; MAX_EVENTS], y: &[i64; MAX_EVENTS], to: usize, term: &Term) -> i64
    requires x { Summable x.now (term_of term.now) }
    requires y { Summable y.now (term_of term.now) }
    requires inside { to < 64 }
    ensures { result ≡ phase_sum (times x.now) (times y.now) to (term_of term.now) }
{
    if term_sum(x, term) < x[to] {
        x[to]
    } else {
        term_sum(y, term)
    }
}

/// All events at one time, but the source at 0.
fn level(events: usize, source: usize, time: i64) -> [i64; MAX_EVENTS]
    requires few { events ≤ 64 }
    requires inside { source < events }
    ensures { Level events source time result }
{
    let mut timetable = [0; MAX_EVENTS];
    timetable[..events].fill(time);
    timetable[source] = 0;
    timetable
}

/// The number that stands `step` places after `first`, going round below `n`.
// steps, not a chain of the ranges from `first` and up to it: the chain makes most example sheets a third slower
fn turn(n: usize, first: usize, step: usize) -> usize
    requires first { first ≤ n }
    requires step { step < n }
    ensures inside { result < n }
    ensures round { (result ≡ first + step) ⊎ (result + n ≡ first + step) }
{
    if step < n - first {
        first + step
    } else {
        step - (n - first)
    }
}

/// Is some event later in y than in x?
fn rose(x: &[i64; MAX_EVENTS], y: &[i64; MAX_EVENTS], events: usize) -> bool
    requires { events ≤ 64 }
    ensures some { result ≡ true → (e : ℕ) × (e < events) × (times x.now e <ℤ times y.now e) }
    ensures none { result ≡ false → (e : ℕ) → e < events → times y.now e ≤ℤ times x.now e }
{
    x[..events]
        .iter()
        .zip(y)
        .any(|(before, after)| before < after)
}

impl<'a, R: RuleSet> Task<'a, R> {
    /// Rises from phase to phase until one lifts nothing; None where the rules refuse a bound.
    ///
    /// Every event starts as low as any need lie. What a phase ends with is the start of the next; it never puts an event
    /// lower. Where the rise ends, no timetable that keeps the bounds, with the source at 0, puts an event later.
    pub(crate) fn rise(&self) -> Option<[i64; MAX_EVENTS]>
        ensures { let task = asked self.now in MatchOption result (Contradictory task.meaning task.bounds) (λ x. Summit task (times x)) }
    {
        let mut x = level(self.sheet.events, self.source, LOW_MARK);
        loop {
            let y = self.phase(&x)?;
            if !rose(&x, &y, self.sheet.events) {
                return Some(x);
            }
            x = y;
        }
    }

    /// One phase: every event at the far mark, then lowered for as long as a bound asks for less; None where the rules
    /// refuse a bound.
    ///
    /// A bound asks for less when the terms whose sums are not before TO's time are not enough. The bounds are gone
    /// through round and round: after a lowering the next bound comes, and the phase is over after a whole quiet round.
    fn phase(&self, x: &[i64; MAX_EVENTS]) -> Option<[i64; MAX_EVENTS]>
        requires { Rising (asked self.now) (times x.now) }
        ensures { let task = asked self.now in MatchOption result (Contradictory task.meaning task.bounds) (PhaseOver task x.now) }
    {
        let rules = self.sheet.rules;
        let bounds = self.sheet.bounds;
        let chosen = self.chosen;
        let mut y = level(self.sheet.events, self.source, FAR_MARK);
        let mut first = 0;
        // loops with labels: a bound is left as soon as its terms are enough, and a round as soon as a bound lowers
        'rounds: loop {
            'bounds: for step in 0..bounds.len() {
                let i = turn(bounds.len(), first, step);
                let takes_part = chosen[i];
                if !takes_part {
                    continue 'bounds;
                }
                let b = &bounds[i];
                let to = b.to();
                let kind = b.kind();
                let k = b.k();
                let terms = b.terms();
                // a cast, proved to fit: try_from would add an error that cannot come
                let count = terms.len() as u8;
                // an array, not an ArrayVec: keeping count of the sums makes the example sheets a fifth slower
                let mut sums = [0; MAX_TERMS];
                let mut set = 0u8;
                for (j, term) in terms.iter().enumerate() {
                    let sum = phase_sum(x, &y, to, term);
                    sums[j] = sum;
                    if y[to] <= sum {
                        set |= 1 << j;
                        if rules.enough(kind, k, count, set) {
                            continue 'bounds;
                        }
                    }
                }
                // the rounds are left by their label, and not by `?`
                let Some(time) = latest(rules, kind, k, &sums[..terms.len()]) else {
                    break 'rounds None;
                };
                y[to] = time;
                first = i + 1;
                continue 'rounds;
            }
            break 'rounds Some(y);
        }
    }
}
