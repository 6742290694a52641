use crate::short::Short;

pub mod methods;

/// A number as text. No number of 64 bits is longer.
#[derive(Clone, Copy)]
pub struct Numeral {
    bytes: Short<20>,
}
