//! The figures of the solver, made of those of a sheet.

use timing::limits::{MAX_DELAY, MAX_SEPARATION};
pub use timing::limits::{MAX_BOUNDS, MAX_EVENTS};

/// No event is put after the far mark.
pub(crate) const FAR_MARK: i64 = 1000 * MAX_DELAY;

/// No event need lie before the low mark, with the source at 0.
pub(crate) const LOW_MARK: i64 = -MAX_SEPARATION;
