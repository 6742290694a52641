//! Lines and fields: parts of the text, each with its place.
ghost use Rattle.std.specs.Prelude.{◌≡◌, ◌+◌, ◌<◌, ◌≤◌, [], length, MatchOption, slice_index_or};
ghost use Rattle.text.specs.Split.{parted_by, fields_of, FieldsMake};
ghost use Rattle.text.specs.Checks.{allowed, each, line_bytes};

use crate::fault::{Place, TextFault};

/// The byte that ends a line.
pub const NEWLINE: u8 = 10;
/// The byte that parts two fields.
pub const TAB: u8 = 9;

/// How many parts `c` makes of `s`.
// a loop: with `split(..).count()`, or a filter's, a text without its end takes two to three times as long to refuse
pub(crate) fn count_parts(s: &[u8], c: u8) -> usize
    ensures { result ≡ length (parted_by c s.now) }
{
    let mut n = 0;
    for b in s {
        if *b == c {
            n += 1;
        }
    }
    n + 1
}

fn is_allowed(b: u8) -> bool
    ensures { result ≡ allowed b }
{
    matches!(b, TAB | 32..=126)
}

// a function of its own: inside the `if` of its caller, what `all` answers got no proof
fn all_allowed(bytes: &[u8]) -> bool
    ensures { result ≡ each allowed bytes.now }
{
    bytes.iter().all(|b| is_allowed(*b))
}

/// A field of a line: a part of the text, with its place.
#[derive(Clone, Copy, Debug, PartialEq, Eq)]
pub struct Field<'a> {
    pub bytes: &'a [u8],
    pub place: Place,
}

/// A line of a text, without the byte that ends it, with its number.
#[derive(Clone, Copy, Debug, PartialEq, Eq)]
pub struct Line<'a> {
    pub bytes: &'a [u8],
    pub number: usize,
}

impl<'a> Line<'a> {
    /// Fault 3 where a byte may not stand in a line.
    pub fn check_bytes(self) -> Result<(), TextFault>
        ensures { result ≡ line_bytes self.entry.number self.entry.bytes.now }
    {
        if all_allowed(self.bytes) {
            return Ok(());
        }
        Err(TextFault::BadByte { line: self.number })
    }

    /// How many fields the line has: at least one. The fields with tabs between them are the line.
    pub fn count(self) -> usize
        ensures value { result ≡ length (fields_of self.entry.bytes.now) }
        ensures lossless { FieldsMake self.entry.bytes.now (fields_of self.entry.bytes.now) }
    {
        count_parts(self.bytes, TAB)
    }

    /// The field with index `k`, counted from 0; its place counts from 1.
    pub fn field(self, k: usize) -> Option<Field<'a>>
        ensures { MatchOption result (length (fields_of self.entry.bytes.now) ≤ k) (λ f. (k < length (fields_of self.entry.bytes.now)) × (f.bytes.now ≡ slice_index_or (fields_of self.entry.bytes.now) k []) × (f.place ≡ record { line = self.entry.number; field = k + 1 })) }
    {
        let bytes = self.bytes.split(|b| *b == TAB).nth(k)?;
        Some(Field {
            bytes,
            place: Place {
                line: self.number,
                field: k + 1,
            },
        })
    }
}
