//! Numbers written as numerals.
ghost use Rattle.std.specs.Prelude.{◌≡◌, ◌≤◌, pos, Some, decimal};
ghost use Rattle.std.specs.Fmt.{signed_decimal};
ghost use Rattle.text.specs.Numerals.{numeral};
ghost use Rattle.text.specs.Spelled.{digits_of};

use crate::short::Short;
use crate::written::Numeral;
use itoa::{Buffer, Integer};

impl Numeral {
    /// The numeral of a natural number; reading it gives the number back.
    pub fn natural(n: u64) -> Numeral
        ensures written { digits_of result ≡ decimal n }
        ensures read { numeral (digits_of result) ≡ Some (pos n) }
    {
        Numeral::of(n)
    }

    /// The numeral of a signed number; reading it gives the number back.
    pub fn signed(value: i64) -> Numeral
        ensures written { digits_of result ≡ signed_decimal value }
        ensures read { numeral (digits_of result) ≡ Some value }
    {
        Numeral::of(value)
    }

    fn of<I: Integer>(number: I) -> Numeral
        requires { I.MAX_STR_LEN ≤ 20 }
        ensures { digits_of result ≡ I.text number }
    {
        let mut buffer = Buffer::new();
        let digits = buffer.format(number).as_bytes();
        Numeral {
            bytes: Short::new(digits).unwrap(),
        }
    }

    /// The bytes that write it.
    pub fn as_bytes(&self) -> &[u8]
        ensures { result.now ≡ digits_of self.now }
    {
        self.bytes.as_bytes()
    }
}
