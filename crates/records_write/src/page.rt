ghost use Rattle.std.specs.Prelude.{◌≤◌};
ghost use Rattle.arrayvec.specs.ArrayVec.{array_vec_len};

mod methods;

use arrayvec::ArrayVec;
use text::checks::MAX_BYTES;
use text::name::Name;

/// A page of text that is being written: the bytes put so far, and the names by which the text speaks of events.
///
/// What does not fit is left out. The text of a sheet fits, as `write` promises.
#[derive(Drop)]
pub(crate) struct Page<'a> {
    // an ArrayVec, not a Vec: only opening a sheet may want memory
    bytes: ArrayVec<u8, MAX_BYTES>,
    names: &'a [Name],
    ghost fits: { array_vec_len bytes ≤ 65536 },
}
