//! What holds of every sheet of at most 64 events, under every rule set that keeps the laws, from every source
//! and for every delay limit D from 1 up, with the far mark at 1000 D. Each function stands for the theorem that
//! its contract names.

ghost use Rattle.timing.specs.Theorems.{PlacesAreUnique, ContradictionIgnoresTheSource, SomeTimetableStaysLow};
ghost use Rattle.timing.specs.Theorems.{FarPlacesAreOpen, NearPlacesAreExact, NoPlaceBetween};
ghost use Rattle.timing.specs.Theorems.{KnotIsMinimal, KnotIsUnique};

/// A sheet has one latest timetable: two that are both its places agree on each event.
pub fn places_are_unique()
    ensures { PlacesAreUnique }
{}

/// A sheet is contradictory from every source alike: no timetable with the source at 0 and no event after the far
/// mark keeps all bounds exactly when none at all keeps them.
pub fn contradiction_ignores_the_source()
    ensures { ContradictionIgnoresTheSource 64 }
{}

/// If some timetable keeps all bounds, then one has the source at 0, no event after the far mark and none before
/// -63 D.
pub fn some_timetable_stays_low()
    ensures { SomeTimetableStaysLow 64 }
{}

/// An event whose place is above 63 D is put after any given number by some timetable that keeps all bounds with the
/// source at 0.
pub fn far_places_are_open()
    ensures { FarPlacesAreOpen 64 }
{}

/// An event whose place is at most 63 D has it at or after -63 D, and no timetable that keeps all bounds with the
/// source at 0 puts it later.
pub fn near_places_are_exact()
    ensures { NearPlacesAreExact 64 }
{}

/// No place lies above 63 D and below the far mark less 63 D.
pub fn no_place_between()
    ensures { NoPlaceBetween 64 }
{}

/// The bounds of a knot admit no timetable, and without any single one of them the rest admit one.
pub fn knot_is_minimal()
    ensures { KnotIsMinimal }
{}

/// A sheet has one knot.
pub fn knot_is_unique()
    ensures { KnotIsUnique }
{}
