//! Names made from bytes, and compared with bytes.
ghost use Rattle.std.specs.Prelude.{◌≡◌, false, Decides, MatchOption};
ghost use Rattle.text.specs.Checks.{each};
ghost use Rattle.text.specs.Names.{name_byte, is_name};
ghost use Rattle.text.specs.Spelled.{spelled};

use crate::name::Name;
use crate::short::Short;

/// The most bytes that a name may have.
pub const MAX_LEN: usize = 12;

fn is_name_byte(b: u8) -> bool
    ensures { result ≡ name_byte b }
{
    b.is_ascii_alphanumeric() || b == b'_'
}

// a function of its own: inside the `if` of its caller, what `all` answers got no proof
fn all_name_bytes(bytes: &[u8]) -> bool
    ensures { result ≡ each name_byte bytes.now }
{
    bytes.iter().all(|b| is_name_byte(*b))
}

impl Name {
    /// The name that is written so, or None where these bytes are no name.
    pub fn new(written: &[u8]) -> Option<Name>
        ensures { MatchOption result (is_name written.now ≡ false) (λ name. spelled name ≡ written.now) }
    {
        if written.is_empty() || written.len() > MAX_LEN || !all_name_bytes(written) {
            return None;
        }
        let bytes = Short::new(written)?;
        Some(Name { bytes })
    }

    /// The bytes that write it.
    pub fn as_bytes(&self) -> &[u8]
        ensures { result.now ≡ spelled self.now }
    {
        self.bytes.as_bytes()
    }

    /// Whether it is written so.
    pub fn is(&self, written: &[u8]) -> bool
        ensures { Decides result (spelled self.now ≡ written.now) }
    {
        self.as_bytes() == written
    }
}
