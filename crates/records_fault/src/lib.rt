//! What can be wrong with the text of a timing sheet, and why a sheet is not written.
#![tactic(auto)]

pub mod fault;
