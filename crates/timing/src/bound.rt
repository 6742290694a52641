ghost use Rattle.std.specs.Prelude.{◌≡◌, ◌≤◌, length};

pub mod methods;

/// A term of a bound: an event FROM and a delay in ticks.
#[derive(Clone, Copy, PartialEq, Eq, Default)]
pub struct Term {
    pub from: usize,
    pub delay: i64,
}

/// A bound on its late event TO: a kind, a K and one to eight terms, the first `count` of `terms`.
// an array and a count, no ArrayVec: a bound is copied, and what lies in an ArrayVec is only moved
#[derive(Clone, Copy)]
pub struct Bound {
    to: usize,
    kind: u8,
    k: u8,
    count: usize,
    terms: [Term; 8],
    ghost some: { 1 ≤ count },
    ghost most: { count ≤ 8 },
    ghost long: { length terms ≡ 8 },
}
