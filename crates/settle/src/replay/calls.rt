ghost use Rattle.std.specs.Prelude.{IfOk};
ghost use Rattle.settle.specs.Runs.{rules_in, Stepped, Replays};

use crate::replay::{Answer, Call, Replayed, Sheet};
use crate::settled::settle;
use rules::RuleSet;
use sheet::drawn::Drawn;
use std::alloc::{AllocError, Global};

/// Makes the calls in order on a new sheet under these rules, as to rebuild a sheet from a journal.
pub fn replay<R: RuleSet + Drop>(
    heap: Global,
    rules: R,
    calls: &[Call<'_, '_>],
) -> Result<Replayed<R>, AllocError>
    ensures { IfOk result (λ x. Replays (R.RuleSet.admitted rules) (R.RuleSet.suffices rules) rules calls.now x.answers.items x.sheet) }
{
    let mut answers = Vec::with_capacity(heap, calls.len())?;
    let mut sheet = Sheet::Drawn(Drawn::open(heap, rules)?);
    for call in calls {
        let (next, answer) = step(sheet, call);
        sheet = next;
        answers.push(answer)?;
    }
    Ok(Replayed { answers, sheet })
}

// a match on each call, no closures: the calls are values, read from a journal
/// Makes one call.
fn step<R: RuleSet + Drop>(sheet: Sheet<R>, call: &Call<'_, '_>) -> (Sheet<R>, Answer)
    ensures { Stepped (R.RuleSet.admitted (rules_in sheet)) (R.RuleSet.suffices (rules_in sheet)) sheet call.now result.0 result.1 }
{
    match sheet {
        Sheet::Drawn(mut drawn) => match *call {
            Call::Event(name) => {
                let number = drawn.event(name);
                (Sheet::Drawn(drawn), Answer::Added(number))
            }
            Call::Bound { kind, k, to, terms } => {
                let number = drawn.bound(kind, k, to, terms);
                (Sheet::Drawn(drawn), Answer::Added(number))
            }
            Call::Strike(bound) => {
                let left = drawn.strike(bound);
                (Sheet::Drawn(drawn), Answer::Struck(left))
            }
            Call::Settle(source) => (Sheet::Settled(settle(drawn, source)), Answer::Moved),
            Call::Read(_) | Call::Knot(_) | Call::Reopen => (
                Sheet::Drawn(drawn),
                Answer::OutOfPlace,
            ),
        },
        Sheet::Settled(settled) => match *call {
            Call::Read(event) => {
                let reading = settled.read(event);
                (Sheet::Settled(settled), Answer::ReadAs(reading))
            }
            Call::Knot(bound) => {
                let inside = settled.knot(bound);
                (Sheet::Settled(settled), Answer::InKnot(inside))
            }
            Call::Reopen => (Sheet::Drawn(settled.reopen()), Answer::Moved),
            _ => (Sheet::Settled(settled), Answer::OutOfPlace),
        },
    }
}
