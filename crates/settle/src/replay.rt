use crate::reading::Reading;
use crate::settled::Settled;
use rules::RuleSet;
use sheet::drawn::Drawn;
use sheet::fault::{CallFault, Refusal};
use timing::bound::Term;

mod calls;

pub use calls::replay;

/// A call on a sheet, as a value.
#[derive(Clone, Copy)]
pub enum Call<'n, 't> {
    Event(&'n [u8]),
    Bound {
        kind: u8,
        k: u8,
        to: usize,
        terms: &'t [Term],
    },
    Strike(usize),
    Settle(usize),
    Read(usize),
    Knot(usize),
    Reopen,
}

/// What a call answered.
// no Result around it: that a sheet is in its other state is one answer among the others, and the run goes on
#[derive(Clone, Copy)]
pub enum Answer {
    /// To event and bound: the number of what was added.
    Added(Result<usize, CallFault>),
    /// To strike: how many bounds are left.
    Struck(Result<usize, Refusal>),
    /// To read.
    ReadAs(Result<Reading, Refusal>),
    /// To knot.
    InKnot(Result<bool, Refusal>),
    /// To settle and reopen.
    Moved,
    /// The sheet is in the other of its two states, and stays as it is.
    OutOfPlace,
}

/// A sheet in one of its two states.
// an enum round two types, not one type with a flag: to settle and to reopen move the sheet
#[derive(Drop)]
pub enum Sheet<R: RuleSet> {
    Drawn(Drawn<R>),
    Settled(Settled<R>),
}

/// What a run of calls gave: the answers in order, and the sheet at the end.
#[derive(Drop)]
pub struct Replayed<R: RuleSet> {
    pub answers: Vec<Answer>,
    pub sheet: Sheet<R>,
}
