ghost use Rattle.std.specs.Prelude.{◌≤◌};
ghost use Rattle.arrayvec.specs.ArrayVec.{array_vec_len};

use arrayvec::ArrayVec;
use text::name::Name;
use timing::bound::Term;

/// A need: every timetable that keeps the bounds is to have TO not later than FROM + MOST.
#[derive(Clone, Copy, Default, PartialEq, Eq)]
pub struct Need {
    pub from: usize,
    pub to: usize,
    pub most: i64,
}

/// FROM + LOW ≤ TO ≤ FROM + HIGH, each side where it is given.
#[derive(Clone, Copy)]
pub(crate) struct Linear {
    pub(crate) from: usize,
    pub(crate) to: usize,
    pub(crate) low: Option<i32>,
    pub(crate) high: Option<i32>,
}

/// One input of a delay.
#[derive(Clone, Copy, Default)]
pub(crate) struct Input {
    pub(crate) from: usize,
    pub(crate) low: Option<i32>,
    pub(crate) high: i32,
}

/// A delay from its inputs to TO.
#[derive(Drop)]
pub(crate) struct Delay {
    pub(crate) to: usize,
    pub(crate) inputs: ArrayVec<Input, 8>,
    ghost some: { 1 ≤ array_vec_len inputs },
}

// not a `timing::bound::Bound`: that is made as an Option, and here None could not come
/// A bound of any kind.
#[derive(Drop)]
pub(crate) struct Limit {
    // numbers, not an enum: a buyer's rule set has kinds of its own
    pub(crate) kind: u8,
    pub(crate) k: u8,
    pub(crate) to: usize,
    pub(crate) terms: ArrayVec<Term, 8>,
    ghost some: { 1 ≤ array_vec_len terms },
}

/// What a line says.
#[derive(Drop)]
pub(crate) enum Entry {
    Event(Name),
    Linear(Linear),
    Delay(Delay),
    Limit(Limit),
    Need(Need),
}
