ghost use Rattle.sheet.specs.Model.{sheet_of};
ghost use Rattle.settle.specs.Meaning.{Right};

use rules::RuleSet;
use sheet::drawn::Drawn;
use sheet::drawn::methods::{MAX_BOUNDS, MAX_EVENTS};

mod methods;

pub use methods::settle;

/// A sheet settled from a source: it is only read, and what was found is right by the meaning of its bounds.
#[derive(Drop)]
pub struct Settled<R: RuleSet> {
    drawn: Drawn<R>,
    source: usize,
    found: Found,
    // between ∥ and ∥₁, so that two proofs count as one
    ghost right: { ∥ Right (R.RuleSet.suffices drawn.rules) (sheet_of drawn) source found ∥₁ },
}

/// What settling found.
// arrays, as the solver fills them, and no ArrayVec: the sheet beside them has their lengths
#[derive(Drop)]
pub(crate) enum Found {
    /// The source is no event.
    NoSource,
    /// The places of the events, by number.
    Placed([i64; MAX_EVENTS]),
    /// No timetable keeps the bounds; by number, which of them are in the knot.
    Knotted([bool; MAX_BOUNDS]),
}
