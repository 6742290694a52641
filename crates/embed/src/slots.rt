//! What an editor hands in to be filled.
ghost use Rattle.std.specs.Prelude.{◌≡◌};
ghost use Rattle.embed.specs.Settling.{slot_of, place_of};

use records_fault::fault::LoadFault;
use settle::reading::Reading;

/// What is read of an event.
// numbers, not an Option and a bool: C reads this layout
#[repr(C)]
#[derive(Clone, Copy, Default, PartialEq, Eq)]
pub struct EventReading {
    /// Its time in the latest timetable, which has the source at 0.
    pub place: i64,
    /// How late it can come after the source; 0 where it is open.
    pub separation: i64,
    /// 1 where it is open, else 0.
    pub open: u8,
}

impl From<Reading> for EventReading {
    ghost from_gives = { λ reading r. r ≡ slot_of reading };

    fn from(reading: Reading) -> EventReading {
        EventReading {
            place: reading.place,
            separation: reading.separation.unwrap_or(0),
            open: u8::from(reading.separation.is_none()),
        }
    }
}

/// A fault of a text, and where it stands.
// three numbers, 0 for no line and no field: C reads them
#[repr(C)]
#[derive(Clone, Copy, Default, PartialEq, Eq)]
pub struct FaultPlace {
    pub number: usize,
    pub line: usize,
    pub field: usize,
}

impl From<LoadFault> for FaultPlace {
    ghost from_gives = { λ fault r. r ≡ place_of fault };

    fn from(fault: LoadFault) -> FaultPlace {
        let place = fault.place();
        FaultPlace {
            number: usize::from(fault.number()),
            line: place.line,
            field: place.field,
        }
    }
}
