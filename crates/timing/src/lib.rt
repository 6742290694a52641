//! Event separations on an interface timing sheet: what they are, and what is proved of them.
//!
//! The definitions stand in specs/: timetables and what they keep, places, separations and knots.
//! Nothing here computes them; the functions carry theorems of the definitions.
#![tactic(auto)]

pub mod bound;
pub mod limits;
pub mod theorems;
pub mod worked;
