//! Text records: a timing sheet and its needs, read from text.
#![tactic(auto)]

pub mod entry;
mod group;
mod line;
pub mod load;
mod reader;
