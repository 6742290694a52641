//! A few bytes.
ghost use Rattle.std.specs.Prelude.{◌≡◌, ◌<◌, ◌≤◌, length, take, MatchOption};

/// At most `N` bytes, which lie in the value itself.
// not the crate arrayvec's: a name and a number are copied, and what lies in an ArrayVec is only moved
#[derive(Clone, Copy)]
pub(crate) struct Short<const N: usize> {
    pub(crate) bytes: [u8; N],
    pub(crate) len: usize,
    pub(crate) ghost room: { length bytes ≡ N },
    pub(crate) ghost short: { len ≤ N },
}

impl<const N: usize> Short<N> {
    /// These bytes; None where there are more than `N`.
    pub(crate) fn new(bytes: &[u8]) -> Option<Short<N>>
        ensures { MatchOption result (N < length bytes.now) (λ s. take s.len s.bytes ≡ bytes.now) }
    {
        let len = bytes.len();
        if len > N {
            return None;
        }
        let mut held = [0; N];
        held[..len].copy_from_slice(bytes);
        Some(Short { bytes: held, len })
    }

    pub(crate) fn as_bytes(&self) -> &[u8]
        ensures { result.now ≡ take self.now.len self.now.bytes }
    {
        &self.bytes[..self.len]
    }
}
