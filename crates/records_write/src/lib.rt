//! A timing sheet written as text.
#![tactic(auto)]

mod page;
pub mod write;
