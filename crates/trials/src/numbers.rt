// Names and numerals, at every limit.
use std::process::Abort;
use text::name::Name;
use text::numeral::{NumeralFault, read_numeral};
use text::written::Numeral;

// A field that is to hold a delay.
fn reads(rt: &impl Abort, written: &[u8], expected: Result<i32, NumeralFault>) {
    assert!(rt; read_numeral(written, -1_000_000, 1_000_000) == expected);
}

#[test]
fn numerals_are_read(rt: HostRuntime) {
    reads(&rt, b"0", Ok(0));
    reads(&rt, b"7", Ok(7));
    reads(&rt, b"-1", Ok(-1));
    reads(&rt, b"1000000", Ok(1_000_000));
    reads(&rt, b"-1000000", Ok(-1_000_000));
}

#[test]
fn numerals_have_a_range(rt: HostRuntime) {
    reads(&rt, b"1000001", Err(NumeralFault::OutOfRange));
    reads(&rt, b"-1000001", Err(NumeralFault::OutOfRange));
    reads(&rt, b"4294967295", Err(NumeralFault::OutOfRange));
    reads(&rt, b"4294967296", Err(NumeralFault::OutOfRange));
    reads(&rt, b"-18446744073709551616", Err(NumeralFault::OutOfRange));
    assert!(rt; read_numeral(b"2147483647", i32::MIN, i32::MAX) == Ok(2_147_483_647));
    assert!(rt; read_numeral(b"-2147483648", i32::MIN, i32::MAX) == Ok(-2_147_483_648));
    assert!(rt; read_numeral(b"2147483648", i32::MIN, i32::MAX) == Err(NumeralFault::OutOfRange));
    assert!(rt; read_numeral(b"-2147483649", i32::MIN, i32::MAX) == Err(NumeralFault::OutOfRange));
    assert!(rt; read_numeral(b"0", 1, 0) == Err(NumeralFault::OutOfRange));
}

#[test]
fn other_fields_are_no_numerals(rt: HostRuntime) {
    reads(&rt, b"", Err(NumeralFault::Malformed));
    reads(&rt, b"-", Err(NumeralFault::Malformed));
    reads(&rt, b"-0", Err(NumeralFault::Malformed));
    reads(&rt, b"00", Err(NumeralFault::Malformed));
    reads(&rt, b"07", Err(NumeralFault::Malformed));
    reads(&rt, b"-07", Err(NumeralFault::Malformed));
    reads(&rt, b"--1", Err(NumeralFault::Malformed));
    reads(&rt, b"+1", Err(NumeralFault::Malformed));
    reads(&rt, b"1e3", Err(NumeralFault::Malformed));
    reads(&rt, b" 1", Err(NumeralFault::Malformed));
    reads(&rt, b"1-", Err(NumeralFault::Malformed));
    reads(&rt, b"99999999999999999999x", Err(NumeralFault::Malformed));
}

#[test]
fn numbers_are_written(rt: HostRuntime) {
    assert!(rt; Numeral::signed(0).as_bytes() == b"0".as_slice());
    assert!(rt; Numeral::signed(-1).as_bytes() == b"-1".as_slice());
    assert!(rt; Numeral::signed(1_000_000_000).as_bytes() == b"1000000000".as_slice());
    assert!(rt; Numeral::signed(i64::MAX).as_bytes() == b"9223372036854775807".as_slice());
    assert!(rt; Numeral::signed(i64::MIN).as_bytes() == b"-9223372036854775808".as_slice());
    assert!(rt; Numeral::natural(10).as_bytes() == b"10".as_slice());
    assert!(rt; Numeral::natural(u64::MAX).as_bytes() == b"18446744073709551615".as_slice());
}

// A name that is taken is written as it was read.
fn is_name(written: &[u8]) -> bool {
    Name::new(written).is_some_and(|name| name.is(written) && name.as_bytes() == written)
}

#[test]
fn names(rt: HostRuntime) {
    assert!(rt; !is_name(b""));
    assert!(rt; is_name(b"A"));
    assert!(rt; is_name(b"_"));
    assert!(rt; is_name(b"azAZ09_aA_zZ"));
    assert!(rt; !is_name(b"azAZ09_aA_zZ0"));
    assert!(rt; !is_name(b"a b"));
    assert!(rt; !is_name(b"a-b"));
    assert!(rt; !is_name(b"@"));
    assert!(rt; !is_name(b"["));
    assert!(rt; !is_name(b"`"));
    assert!(rt; !is_name(b"{"));
    assert!(rt; !is_name(b"/"));
    assert!(rt; !is_name(b":"));
    assert!(rt; !is_name(b"\xff"));
}
