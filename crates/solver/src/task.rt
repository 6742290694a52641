//! What is to be settled: the bounds of a sheet, and which of them from which source.
ghost use Rattle.std.specs.Prelude.{◌<◌, ◌≤◌, map, length};
ghost use Rattle.std.proofs.Props.{props};
ghost use Rattle.timing.specs.Bounds.{bound_of};
ghost use Rattle.timing.specs.Limits.{delay_limit};
ghost use Rattle.timing.specs.Model.{IsSheet};

use crate::limits::MAX_BOUNDS;
use rules::RuleSet;
use timing::bound::Bound;

/// The bounds of a sheet, the rules that they are under, and how many events they are among.
#[derive(Drop)]
pub struct Sheet<'a, R: RuleSet> {
    pub rules: &'a R,
    pub bounds: &'a [Bound],
    pub events: usize,
    pub ghost sheet: { IsSheet 64 delay_limit events (map bound_of bounds.now) } by { Prim.hlevel props },
    pub ghost count: { length bounds.now ≤ 256 },
}

/// To settle the chosen bounds of a sheet from a source.
#[derive(Drop)]
pub struct Task<'a, R: RuleSet> {
    pub sheet: &'a Sheet<'a, R>,
    // flags beside the bounds, by number: the knot changes them while the bounds are lent
    pub chosen: &'a [bool; MAX_BOUNDS],
    pub source: usize,
    pub ghost inside: { source < sheet.now.events },
}
