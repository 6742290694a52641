//! The figures of a sheet.

/// The most events of a sheet.
pub const MAX_EVENTS: usize = 64;

/// The most bounds of a sheet.
pub const MAX_BOUNDS: usize = 256;

/// The greatest delay of a term, in ticks, either way.
pub const MAX_DELAY: i64 = 1_000_000;

/// No separation is greater, either way; an event with a later place is open.
pub const MAX_SEPARATION: i64 = 63 * MAX_DELAY;
