//! The solver: places or a contradiction, and the knot, for any rule set.
//!
//! Everything here is generic over the rule set, and proved from its meaning and laws alone.
#![tactic(auto)]

pub mod knot;
pub mod latest;
pub mod limits;
mod rise;
pub mod solve;
pub mod task;
