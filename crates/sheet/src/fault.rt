ghost use Rattle.std.specs.Prelude.{◌≡◌};
ghost use Rattle.sheet.specs.Faults.{call_number, refusal_number, nowhere};
ghost use Rattle.text.specs.Faults.{layer_of};

use text::fault::{Layer, Place};

/// Why a call that adds to a sheet is refused.
#[derive(Clone, Copy, PartialEq, Eq)]
pub enum CallFault {
    MalformedName,
    NameTaken,
    NoSuchEvent,
    TooManyEvents,
    TooManyBounds,
    NotAdmitted,
    DelayOutOfRange,
}

impl CallFault {
    /// The number by which users know the fault.
    // a match, not discriminants: a fault that holds a place tells its number so too
    pub fn number(self) -> u8
        ensures { result ≡ call_number self }
    {
        match self {
            CallFault::MalformedName => 6,
            CallFault::NameTaken => 9,
            CallFault::NoSuchEvent => 10,
            CallFault::TooManyEvents => 11,
            CallFault::TooManyBounds => 12,
            CallFault::NotAdmitted => 13,
            CallFault::DelayOutOfRange => 14,
        }
    }

    pub fn layer(self) -> Layer
        ensures { result ≡ layer_of (call_number self) }
    {
        match self {
            CallFault::MalformedName => Layer::Record,
            _ => Layer::Sheet,
        }
    }

    /// A call has no place in a text.
    pub fn place(self) -> Place
        ensures { result ≡ nowhere }
    {
        Place { line: 0, field: 0 }
    }
}

/// Why a call is refused that answers with a number only.
#[derive(Clone, Copy, PartialEq, Eq)]
pub enum Refusal {
    /// The sheet is settled from a number that no event has.
    NoSuchSource,
    NoSuchEvent,
    NoSuchBound,
    /// No timetable keeps the bounds, so there is nothing to read.
    Contradictory,
    /// Some timetable keeps the bounds, so there is no knot.
    NotContradictory,
}

impl Refusal {
    /// The number by which users know the refusal.
    pub fn number(self) -> u8
        ensures { result ≡ refusal_number self }
    {
        match self {
            Refusal::NoSuchSource | Refusal::NoSuchEvent => 10,
            Refusal::NoSuchBound => 15,
            Refusal::Contradictory => 17,
            Refusal::NotContradictory => 18,
        }
    }
}
