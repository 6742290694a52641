//! The text of a timing sheet: its bytes, lines and fields, names and numerals, and the faults that these can have.
#![tactic(auto)]

pub mod checks;
pub mod copy;
pub mod fault;
pub mod lines;
pub mod name;
pub mod numeral;
pub mod reader;
mod short;
pub mod written;
