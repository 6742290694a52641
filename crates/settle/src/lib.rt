//! A settled sheet, what is read from it, and whole runs of calls on a sheet.
//!
//! `settle` turns a drawn sheet into a settled one, which is only read; `reopen` gives the drawn one back. What is read
//! is proved to speak of every timetable that keeps the bounds: of one sheet on `settle`, over whole runs on `replay`.
#![tactic(auto)]

pub mod reading;
pub mod replay;
pub mod settled;
pub mod theorems;
