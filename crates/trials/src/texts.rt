// Bytes, lines and fields of a text, at every limit.
use crate::shared::prints;
use std::test::Fail;
use text::checks::{MAX_BYTES, check_bytes};
use text::fault::{Layer, Place, TextFault};
use text::lines::Line;
use text::reader::Reader;

// What is found in a line with this byte in its middle.
fn with_byte(b: u8) -> Result<(), TextFault> {
    check_bytes(&[b'\n', b'A', b, b'Z', b'\n'])
}

const BAD: Result<(), TextFault> = Err(TextFault::BadByte { line: 2 });

#[test]
fn bytes_that_may_stand(rt: HostRuntime) {
    assert!(rt; with_byte(0) == BAD);
    assert!(rt; with_byte(8) == BAD);
    assert!(rt; with_byte(9) == Ok(()));
    assert!(rt; with_byte(10) == Ok(()));
    assert!(rt; with_byte(11) == BAD);
    assert!(rt; with_byte(31) == BAD);
    assert!(rt; with_byte(32) == Ok(()));
    assert!(rt; with_byte(126) == Ok(()));
    assert!(rt; with_byte(127) == BAD);
    assert!(rt; with_byte(255) == BAD);
}

#[test]
fn each_line_is_ended(rt: HostRuntime) {
    assert!(rt; check_bytes(b"") == Ok(()));
    assert!(rt; check_bytes(b"\n") == Ok(()));
    assert!(rt; check_bytes(b"event\tA") == Err(TextFault::Unfinished { line: 1 }));
    assert!(rt; check_bytes(b"\n\nevent\tA") == Err(TextFault::Unfinished { line: 3 }));
    // the whole text comes before its lines
    assert!(rt; check_bytes(b"\x00\nA") == Err(TextFault::Unfinished { line: 2 }));
    assert!(rt; check_bytes(b"A\n\x00\n\x00\n") == Err(TextFault::BadByte { line: 2 }));
}

#[test]
fn a_text_has_a_longest(rt: HostRuntime) -> Result<(), Fail> {
    let mut text = vec![in rt.alloc(); b'\n'; MAX_BYTES]?;
    assert!(rt; check_bytes(text.as_slice()) == Ok(()));
    text.push(b'A')?;
    assert!(rt; check_bytes(text.as_slice()) == Err(TextFault::TooLong));
    Ok(())
}

#[test]
fn faults_tell_where(rt: HostRuntime) {
    assert!(rt; TextFault::TooLong.number() == 1);
    assert!(rt; TextFault::TooLong.place() == Place { line: 0, field: 0 });
    assert!(rt; TextFault::Unfinished { line: 7 }.number() == 2);
    assert!(rt; TextFault::Unfinished { line: 7 }.place() == Place { line: 7, field: 0 });
    assert!(rt; TextFault::BadByte { line: 9 }.number() == 3);
    assert!(rt; TextFault::BadByte { line: 9 }.place() == Place { line: 9, field: 0 });
    assert!(rt; TextFault::BadByte { line: 9 }.layer() == Layer::Text);
}

#[test]
fn lines_are_handed_out(rt: HostRuntime) -> Result<(), Fail> {
    let mut reader = Reader::new(b"one\n\nthree\n");
    let first = reader.next_line().ok_or("no line 1")?;
    assert!(rt; first.number == 1 && first.bytes == b"one".as_slice());
    let second = reader.next_line().ok_or("no line 2")?;
    assert!(rt; second.number == 2 && second.bytes.is_empty());
    let third = reader.next_line().ok_or("no line 3")?;
    assert!(rt; third.number == 3 && third.bytes == b"three".as_slice());
    assert!(rt; reader.next_line().is_none());
    assert!(rt; reader.next_line().is_none());
    Ok(())
}

#[test]
fn fields_are_parts_of_a_line(rt: HostRuntime) -> Result<(), Fail> {
    let line = Line {
        bytes: b"delay\tDV\t\tAV",
        number: 4,
    };
    assert!(rt; line.count() == 4);
    let word = line.field(0).ok_or("no word")?;
    assert!(rt; word.bytes == b"delay".as_slice() && word.place == Place { line: 4, field: 1 });
    let gap = line.field(2).ok_or("no third field")?;
    assert!(rt; gap.bytes.is_empty() && gap.place == Place { line: 4, field: 3 });
    let last = line.field(3).ok_or("no last field")?;
    assert!(rt; last.bytes == b"AV".as_slice() && last.place == Place { line: 4, field: 4 });
    assert!(rt; line.field(4).is_none());
    assert!(rt; line.field(usize::MAX).is_none());
    assert!(rt;
        Line {
            bytes: b"",
            number: 1,
        }
        .count()
            == 1
    );
    Ok(())
}

#[test]
fn faults_are_reported(rt: HostRuntime) -> Result<(), Fail> {
    prints(&rt, b"event\tAV\nevent\tC\rS\n", b"fault\t3\t2\t0\n")?;
    prints(&rt, b"event\tAV", b"fault\t2\t1\t0\n")?;
    prints(&rt, b"event\tAV\n", b"")
}
