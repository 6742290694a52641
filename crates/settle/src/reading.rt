ghost use Rattle.std.specs.Prelude.{◌≡◌};
ghost use Rattle.settle.specs.Held.{reading_at};

use timing::limits::MAX_SEPARATION;

/// What is read of an event.
#[derive(Clone, Copy, PartialEq, Eq)]
pub struct Reading {
    /// How late the event can come after the source; None where it is open.
    pub separation: Option<i64>,
    /// Its time in the latest timetable, which has the source at 0.
    pub place: i64,
}

impl Reading {
    /// The reading of an event at this place.
    pub(crate) fn at(place: i64) -> Reading
        ensures { result ≡ reading_at place }
    {
        let separation = (place <= MAX_SEPARATION).then_some(place);
        Reading { separation, place }
    }
}
