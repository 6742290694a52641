//! Numerals read from a field, within a range that the caller gives.
ghost use Rattle.std.specs.Prelude.{◌≡◌, if◌then◌else◌, Some, None};
ghost use Rattle.std.specs.Option.{option_map};
ghost use Rattle.std.specs.Char.{is_ascii_digit};
ghost use Rattle.text.specs.Checks.{each};
ghost use Rattle.text.specs.Numerals.{read_on, natural, numeral, ranged, JustWritten, capped, capped_size};

/// Why a field holds no number that its reader can take.
#[derive(Clone, Copy, Debug, PartialEq, Eq)]
pub enum NumeralFault {
    /// not 0, nor an optional minus and digits without a leading zero
    Malformed,
    /// a numeral, but not within the range
    OutOfRange,
}

/// The number that digits write, or the largest `u32` where it is larger; None where a byte is no digit.
fn digits_value(digits: &[u8]) -> Option<u32>
    ensures { result ≡ (if each is_ascii_digit digits.now then Some (capped (read_on 0 digits.now)) else None) }
{
    let mut n: u32 = 0;
    for byte in digits {
        let digit = char::from(*byte).to_digit(10)?;
        n = n.saturating_mul(10).saturating_add(digit);
    }
    Some(n)
}

/// The natural number that is written so, or the largest `u32` where it is larger.
fn natural_value(written: &[u8]) -> Option<u32>
    ensures { result ≡ option_map capped (natural written.now) }
{
    match written {
        [] | [b'0', _, ..] => None,
        _ => digits_value(written),
    }
}

/// The number that is written so, its size no larger than that.
fn numeral_value(written: &[u8]) -> Option<i64>
    ensures { result ≡ option_map capped_size (numeral written.now) }
{
    match written {
        [b'-', digits @ ..] => match natural_value(digits)? {
            0 => None,
            n => Some(-i64::from(n)),
        },
        _ => natural_value(written).map(i64::from),
    }
}

/// A value that is to lie from `least` to `most`.
fn within(value: i64, least: i32, most: i32) -> Result<i32, NumeralFault>
    ensures { result ≡ ranged least most (Some value) }
{
    match i32::try_from(value) {
        Ok(value) if (least..=most).contains(&value) => Ok(value),
        _ => Err(NumeralFault::OutOfRange),
    }
}

/// The number that is written so, from `least` to `most`.
pub fn read_numeral(written: &[u8], least: i32, most: i32) -> Result<i32, NumeralFault>
    ensures value { result ≡ ranged least most (numeral written.now) }
    ensures exact { JustWritten least most written.now result }
{
    let value = numeral_value(written).ok_or(NumeralFault::Malformed)?;
    within(value, least, most)
}
