ghost use Rattle.std.specs.Prelude.{◌≡◌};
ghost use Rattle.text.specs.Faults.{layer_of};
ghost use Rattle.records_fault.specs.Faults.{record_number, record_place, load_number, load_place, write_number};
ghost use Rattle.records_fault.specs.declared.fault.RecordFault.TheVariants.{Text};
ghost use Rattle.records_fault.specs.declared.fault.LoadFault.TheVariants.{Record};

use text::fault::{Layer, Place, TextFault};

/// What can be wrong with a record, apart from the sheet that it is for.
#[derive(Clone, Copy, Debug, PartialEq, Eq)]
pub enum RecordFault {
    /// its bytes
    Text(TextFault),
    /// no record begins with this word
    UnknownWord { line: usize },
    /// such a record has another number of fields
    FieldCount { line: usize },
    MalformedName(Place),
    /// malformed, or out of its range
    BadNumeral(Place),
    /// LOW is above HIGH, or neither is given
    LowAboveHigh { line: usize },
}

/// Why a text is not loaded.
#[derive(Clone, Copy, Debug, PartialEq, Eq)]
pub enum LoadFault {
    Record(RecordFault),
    /// an event has this name already
    NameTaken(Place),
    NoSuchEvent(Place),
    TooManyEvents { line: usize },
    TooManyBounds { line: usize },
    /// the rule set does not admit this kind, K and number of terms
    NotAdmitted { line: usize },
    /// no slot is left for a need
    NoSlot { line: usize },
}

/// Why a sheet is not written.
#[derive(Clone, Copy, Debug, PartialEq, Eq)]
pub enum WriteRefusal {
    TooFewBytes,
}

// From is written by hand, not derived: what `?` makes of a fault stands in clauses, and a derived From has none
impl From<TextFault> for RecordFault {
    ghost from_gives = { λ fault r. r ≡ Text fault };

    fn from(fault: TextFault) -> RecordFault {
        RecordFault::Text(fault)
    }
}

impl From<RecordFault> for LoadFault {
    ghost from_gives = { λ fault r. r ≡ Record fault };

    fn from(fault: RecordFault) -> LoadFault {
        LoadFault::Record(fault)
    }
}

// number, layer and place are methods of each fault, not of a trait: nothing takes a fault of any type
impl RecordFault {
    /// The number by which users know the fault.
    pub fn number(self) -> u8
        ensures { result ≡ record_number self }
    {
        match self {
            RecordFault::Text(fault) => fault.number(),
            RecordFault::UnknownWord { .. } => 4,
            RecordFault::FieldCount { .. } => 5,
            RecordFault::MalformedName(_) => 6,
            RecordFault::BadNumeral(_) => 7,
            RecordFault::LowAboveHigh { .. } => 8,
        }
    }

    pub fn layer(self) -> Layer
        ensures { result ≡ layer_of (record_number self) }
    {
        match self {
            RecordFault::Text(fault) => fault.layer(),
            _ => Layer::Record,
        }
    }

    /// The line, and the field where the fault names one.
    pub fn place(self) -> Place
        ensures { result ≡ record_place self }
    {
        match self {
            RecordFault::Text(fault) => fault.place(),
            RecordFault::MalformedName(place) | RecordFault::BadNumeral(place) => place,
            RecordFault::UnknownWord { line }
            | RecordFault::LowAboveHigh { line }
            | RecordFault::FieldCount { line } => Place::on_line(line),
        }
    }
}

impl LoadFault {
    /// The number by which users know the fault.
    pub fn number(self) -> u8
        ensures { result ≡ load_number self }
    {
        match self {
            LoadFault::Record(fault) => fault.number(),
            LoadFault::NameTaken(_) => 9,
            LoadFault::NoSuchEvent(_) => 10,
            LoadFault::TooManyEvents { .. } => 11,
            LoadFault::TooManyBounds { .. } => 12,
            LoadFault::NotAdmitted { .. } => 13,
            LoadFault::NoSlot { .. } => 16,
        }
    }

    pub fn layer(self) -> Layer
        ensures { result ≡ layer_of (load_number self) }
    {
        match self {
            LoadFault::Record(fault) => fault.layer(),
            _ => Layer::Sheet,
        }
    }

    /// The line, and the field where the fault names one.
    pub fn place(self) -> Place
        ensures { result ≡ load_place self }
    {
        match self {
            LoadFault::Record(fault) => fault.place(),
            LoadFault::NameTaken(place) | LoadFault::NoSuchEvent(place) => place,
            LoadFault::TooManyEvents { line }
            | LoadFault::NotAdmitted { line }
            | LoadFault::NoSlot { line }
            | LoadFault::TooManyBounds { line } => Place::on_line(line),
        }
    }
}

impl WriteRefusal {
    /// The number by which users know the refusal.
    pub fn number(self) -> u8
        ensures { result ≡ write_number self }
    {
        match self {
            WriteRefusal::TooFewBytes => 19,
        }
    }
}
