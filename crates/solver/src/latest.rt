ghost use Rattle.std.specs.Prelude.{◌≡◌, ℕ, ◌<◌, ◌≤◌, false, length, pos, ◌≤ℤ◌, MatchOption, slice_index_or};
ghost use Rattle.solver.specs.Permitted.{reaching, LatestTime};

use rules::RuleSet;
use timing::bound::methods::MAX_TERMS;

/// The latest time that a rule permits, from the sums of a bound's terms; None where it is not admitted for so many.
///
/// The terms whose sum is not before that time are enough, and one tick later they are not. Between two sums nothing
/// changes, so the latest time is one of them; the least is permitted, since all terms are enough.
pub fn latest<R: RuleSet>(rules: &R, kind: u8, k: u8, sums: &[i64]) -> Option<i64>
    ensures { MatchOption result (R.RuleSet.admitted rules.now kind k (length sums.now) ≡ false) (LatestTime (R.RuleSet.suffices rules.now) kind k sums.now) }
{
    if sums.len() > MAX_TERMS {
        return None;
    }
    // a cast, proved to fit
    let count = sums.len() as u8;
    if !rules.admits(kind, k, count) {
        return None;
    }
    let mut best = least(sums)?;
    // a loop, not a filter and a maximum: the rules are asked only about a sum later than the best so far
    for sum in sums {
        if *sum > best && rules.enough(kind, k, count, reached(sums, *sum)) {
            best = *sum;
        }
    }
    Some(best)
}

/// The least of some sums.
fn least(sums: &[i64]) -> Option<i64>
    ensures { MatchOption result (length sums.now ≡ 0) (λ low. (j : ℕ) → j < length sums.now → low ≤ℤ slice_index_or sums.now j (pos 0)) }
{
    sums.iter().copied().min()
}

/// The terms whose sum is not before a time.
fn reached(sums: &[i64], time: i64) -> u8
    requires { length sums.now ≤ 8 }
    ensures { result ≡ reaching time sums.now }
{
    // bit by bit: the library makes no mask of a test
    let mut set = 0u8;
    for (i, sum) in sums.iter().enumerate() {
        if *sum >= time {
            set |= 1 << i;
        }
    }
    set
}
