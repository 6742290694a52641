ghost use Rattle.std.specs.Prelude.{◌≡◌, ◌<◌};
ghost use Rattle.sheet.specs.Model.{sheet_of};
ghost use Rattle.settle.specs.Held.{events};
ghost use Rattle.settle.specs.Meaning.{Right, Reads, Knots, Judges};
ghost use Rattle.settle.specs.Model.{standing, read_of, knot_of, verdict_of, HoldsRight};
ghost use Rattle.settle.specs.Promise.{Promise};

use crate::reading::Reading;
use crate::settled::{Found, Settled};
use rules::RuleSet;
use sheet::drawn::Drawn;
use sheet::drawn::methods::MAX_BOUNDS;
use sheet::fault::Refusal;
use solver::task::{Sheet, Task};

/// Settles a drawn sheet from a source, whatever number that is.
pub fn settle<R: RuleSet>(drawn: Drawn<R>, source: usize) -> Settled<R>
    ensures moved { result.drawn ≡ drawn }
    ensures from { result.source ≡ source }
    ensures right { HoldsRight (R.RuleSet.suffices drawn.rules) result }
    ensures promise { source < events (sheet_of drawn) → Promise (R.RuleSet.suffices drawn.rules) (sheet_of drawn) source (read_of result) (knot_of result) }
{
    let found = find(&drawn, source);
    Settled {
        drawn,
        source,
        found,
    }
}

/// What there is to find from a source.
fn find<R: RuleSet>(drawn: &Drawn<R>, source: usize) -> Found
    ensures { Right (R.RuleSet.suffices drawn.now.rules) (sheet_of drawn.now) source result }
{
    let events = drawn.event_count();
    if source >= events {
        return Found::NoSource;
    }
    let sheet = Sheet {
        rules: drawn.rules(),
        bounds: drawn.bounds(),
        events,
    };
    let task = Task {
        sheet: &sheet,
        chosen: &[true; MAX_BOUNDS],
        source,
    };
    match task.solve() {
        Some(places) => Found::Placed(places),
        None => Found::Knotted(sheet.knot()),
    }
}

impl<R: RuleSet> Settled<R> {
    /// The drawn sheet again, with its events and bounds.
    pub fn reopen(self) -> Drawn<R>
        ensures { result ≡ self.drawn }
    {
        let Settled { drawn, .. } = self;
        drawn
    }

    /// The sheet that was settled: its events, bounds and rules.
    pub fn sheet(&self) -> &Drawn<R>
        ensures { result.now ≡ self.now.drawn }
    {
        &self.drawn
    }

    /// The number that it was settled from.
    pub fn source(&self) -> usize
        ensures { result ≡ self.now.source }
    {
        self.source
    }

    /// The separation of an event from the source, and its place.
    pub fn read(&self, event: usize) -> Result<Reading, Refusal>
        ensures held { result ≡ read_of self.now event }
        ensures meant { Reads (R.RuleSet.suffices self.now.drawn.rules) (standing self.now) self.now.source event result }
    {
        match &self.found {
            Found::NoSource => Err(Refusal::NoSuchSource),
            _ if event >= self.drawn.event_count() => Err(Refusal::NoSuchEvent),
            Found::Placed(places) => Ok(Reading::at(places[event])),
            Found::Knotted(_) => Err(Refusal::Contradictory),
        }
    }

    /// Whether a bound is in the knot of a contradictory sheet.
    pub fn knot(&self, bound: usize) -> Result<bool, Refusal>
        ensures held { result ≡ knot_of self.now bound }
        ensures meant { Knots (R.RuleSet.suffices self.now.drawn.rules) (standing self.now) self.now.source bound result }
    {
        match &self.found {
            Found::NoSource => Err(Refusal::NoSuchSource),
            Found::Placed(_) => Err(Refusal::NotContradictory),
            Found::Knotted(flags) => flags[..self.drawn.bound_count()]
                .get(bound)
                .copied()
                .ok_or(Refusal::NoSuchBound),
        }
    }

    /// Whether a need is met whose FROM is the source: TO is never later than FROM + MOST. An open event passes any number.
    pub fn is_met(&self, to: usize, most: i64) -> Result<bool, Refusal>
        ensures held { result ≡ verdict_of self.now to most }
        ensures meant { Judges (R.RuleSet.suffices self.now.drawn.rules) (standing self.now) self.now.source to most result }
    {
        let reading = self.read(to)?;
        Ok(reading.separation.is_some_and(|v| v <= most))
    }
}
