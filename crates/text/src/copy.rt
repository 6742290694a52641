//! A text copied into bytes handed in.
ghost use Rattle.std.specs.Prelude.{◌≡◌};
ghost use Rattle.text.specs.Copies.{copied_length, copied_onto};

/// Copies a text to the front of `out`, and answers its length. None, and nothing is written, where there are too few
/// bytes.
pub fn copy_out(text: &[u8], out: &mut [u8]) -> Option<usize>
    ensures answer { result ≡ copied_length text.now out.old }
    ensures bytes { out.new ≡ copied_onto text.now out.old }
{
    let length = text.len();
    if out.len() < length {
        return None;
    }
    out[..length].copy_from_slice(text);
    Some(length)
}
