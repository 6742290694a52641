ghost use Rattle.std.specs.Prelude.{◌≤◌, vec_len, vec_capacity};
ghost use Rattle.sheet.specs.Sound.{plain_of, Distinct, Aimed, Termed};

use rules::RuleSet;
use text::name::Name;
use timing::bound::Bound;

pub mod methods;

/// A sheet that takes events and bounds, under the rule set that it was opened with.
///
/// There is room for all events and bounds from the start, so that only opening can want memory.
#[derive(Drop)]
pub struct Drawn<R: RuleSet> {
    rules: R,
    names: Vec<Name>,
    bounds: Vec<Bound>,
    ghost few: { vec_len names ≤ 64 },
    ghost room: { 64 ≤ vec_capacity names },
    ghost most: { vec_len bounds ≤ 256 },
    ghost space: { 256 ≤ vec_capacity bounds },
    ghost apart: { Distinct (plain_of names bounds).names },
    ghost aimed: { Aimed (plain_of names bounds) },
    ghost termed: { Termed (plain_of names bounds) },
}
