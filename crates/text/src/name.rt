ghost use Rattle.std.specs.Prelude.{◌≡◌, true, take};
ghost use Rattle.text.specs.Names.{is_name};

use crate::name::methods::MAX_LEN;
use crate::short::Short;

pub mod methods;

/// The name of an event: 1 to 12 of the bytes A-Z, a-z, 0-9 and _.
#[derive(Clone, Copy)]
pub struct Name {
    bytes: Short<MAX_LEN>,
    ghost named: { is_name (take bytes.len bytes.bytes) ≡ true },
}
