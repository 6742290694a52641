//! What can be wrong with the bytes of a text, and how a fault tells its number, layer and place.
ghost use Rattle.std.specs.Prelude.{◌≡◌};
ghost use Rattle.text.specs.Faults.{layer_of, on_line, text_number, text_place};

/// The part of the product that finds a fault.
#[derive(Clone, Copy, Debug, PartialEq, Eq)]
pub enum Layer {
    Text,
    Record,
    Sheet,
}

/// A place in a text: line and field, each counted from 1; 0 where a fault names none.
// 0, not None: both numbers are printed, and handed to C, as they stand
#[derive(Clone, Copy, Debug, PartialEq, Eq)]
pub struct Place {
    pub line: usize,
    pub field: usize,
}

impl Place {
    /// The place of a fault that names a line and no field.
    pub fn on_line(line: usize) -> Place
        ensures { result ≡ on_line line }
    {
        Place { line, field: 0 }
    }
}

/// What can be wrong with the bytes of a text.
#[derive(Clone, Copy, Debug, PartialEq, Eq)]
pub enum TextFault {
    /// more than 65,536 bytes
    TooLong,
    /// the last line has no byte 10 at its end
    Unfinished { line: usize },
    /// a byte on the line is neither a tab nor one of 32 to 126
    BadByte { line: usize },
}

// number, layer and place are methods of each fault, not of a trait: nothing takes a fault of any type
impl TextFault {
    /// The number by which users know the fault.
    pub fn number(self) -> u8
        ensures { result ≡ text_number self }
    {
        match self {
            TextFault::TooLong => 1,
            TextFault::Unfinished { .. } => 2,
            TextFault::BadByte { .. } => 3,
        }
    }

    pub fn layer(self) -> Layer
        ensures { result ≡ layer_of (text_number self) }
    {
        Layer::Text
    }

    /// The line at fault; text faults name no field.
    pub fn place(self) -> Place
        ensures { result ≡ text_place self }
    {
        let line = match self {
            TextFault::TooLong => 0,
            TextFault::Unfinished { line } | TextFault::BadByte { line } => line,
        };
        Place::on_line(line)
    }
}
