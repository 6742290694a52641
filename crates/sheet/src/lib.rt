//! The sheet of an interface timing diagram: its events and bounds, and the calls that a user makes on it.
#![tactic(auto)]

pub mod drawn;
pub mod fault;
