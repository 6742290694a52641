// Texts with more than one fault: the first in the order of checks is told. Then the limits of a sheet, reached by lines,
// and what a load leaves behind.
use crate::shared::prints;
use records::entry::Need;
use records::load::load;
use rules::Vote;
use sheet::drawn::Drawn;
use std::alloc::{AllocError, Global};
use std::process::Abort;
use std::test::Fail;

// A text, and what is printed for it.
type Printed<'a> = (&'a [u8], &'a [u8]);

const IN_ORDER: [Printed; 14] = [
    // the whole text before its lines
    (b"\x00\nA", b"fault\t2\t2\t0\n"),
    // a byte before the word, the word before the field count, the field count before the fields
    (b"evnt\x01\n", b"fault\t3\t1\t0\n"),
    (b"evnt\t\t\n", b"fault\t4\t1\t0\n"),
    (b"\tA\n", b"fault\t4\t1\t0\n"),
    (b"event\t-\t-\n", b"fault\t5\t1\t0\n"),
    // fields from left to right, whatever is wrong with them
    (b"event\tA\nlinear\tA\t!\tx\ty\n", b"fault\t6\t2\t3\n"),
    (b"event\tA\nlinear\tB\t!\t0\t0\n", b"fault\t10\t2\t2\n"),
    (b"event\tA\nlimit\tx\t0\tB\tA\t0\n", b"fault\t7\t2\t2\n"),
    // all fields before the record
    (b"event\tA\nlinear\tA\tA\t2\t1000001\n", b"fault\t7\t2\t5\n"),
    (
        b"event\tA\ndelay\tA\tA\t2\t1\tB\t0\t1\n",
        b"fault\t10\t2\t6\n",
    ),
    (
        b"event\tA\nlimit\t3\t0\tA\tA\t1000001\n",
        b"fault\t7\t2\t6\n",
    ),
    // nine inputs are a matter of the field count
    (
        b"event\tA\ndelay\tA\tA\t0\t0\tA\t0\t0\tA\t0\t0\tA\t0\t0\tA\t0\t0\tA\t0\t0\tA\t0\t0\tA\t0\t0\tA\t0\t0\n",
        b"fault\t5\t2\t0\n",
    ),
    // a line before the next
    (
        b"event\tA\nlinear\tA\tA\t2\t1\nevent\tA\n",
        b"fault\t8\t2\t0\n",
    ),
    // a need is no bound: it cannot contradict anything
    (
        b"event\tA\nneed\tA\tA\t-1\nneed\tA\tA\t0\n",
        b"need\tA\tA\t-1\tbroken\t0\nat\tA\t0\nneed\tA\tA\t0\tmet\t0\n",
    ),
];

#[test]
fn first_fault_in_order(rt: HostRuntime) -> Result<(), Fail> {
    for (text, expected) in IN_ORDER {
        prints(&rt, text, expected)?;
    }
    Ok(())
}

// So many times the line.
fn lines(heap: Global, first: &[u8], line: &[u8], times: usize) -> Result<Vec<u8>, AllocError> {
    let mut text = Vec::from_slice(heap, first)?;
    for _ in 0..times {
        text.extend_from_slice(line)?;
    }
    Ok(text)
}

// So many events by lines.
fn events(heap: Global, count: u8) -> Result<Vec<u8>, AllocError> {
    let mut text = Vec::new(heap);
    for i in 0..count {
        text.extend_from_slice(b"event\t")?;
        text.extend_from_slice(&[b'0' + i / 10, b'0' + i % 10, b'\n'])?;
    }
    Ok(text)
}

// What is printed for a text with one line more.
fn prints_after(
    rt: &(impl Abort + AllocGlobal),
    text: &[u8],
    line: &[u8],
    expected: &[u8],
) -> Result<(), Fail> {
    let mut longer = Vec::from_slice(rt.alloc(), text)?;
    longer.extend_from_slice(line)?;
    prints(rt, longer.as_slice(), expected)
}

#[test]
fn sixty_four_events_by_lines(rt: HostRuntime) -> Result<(), Fail> {
    let heap = rt.alloc();
    let text = events(heap, 64)?;
    prints(&rt, text.as_slice(), b"")?;
    prints_after(
        &rt,
        text.as_slice(),
        b"event\tmore\n",
        b"fault\t11\t65\t0\n",
    )?;
    prints_after(&rt, text.as_slice(), b"event\t00\n", b"fault\t9\t65\t2\n")?;
    prints_after(&rt, text.as_slice(), b"event\t\n", b"fault\t6\t65\t2\n")
}

#[test]
fn two_hundred_and_fifty_six_bounds_by_lines(rt: HostRuntime) -> Result<(), Fail> {
    let heap = rt.alloc();
    let text = lines(heap, b"event\tA\n", b"linear\tA\tA\t0\t0\n", 128)?;
    prints(&rt, text.as_slice(), b"")?;
    prints_after(
        &rt,
        text.as_slice(),
        b"linear\tA\tA\t-\t0\n",
        b"fault\t12\t130\t0\n",
    )?;
    prints_after(
        &rt,
        text.as_slice(),
        b"linear\tA\tA\t1\t0\n",
        b"fault\t8\t130\t0\n",
    )?;
    prints_after(
        &rt,
        text.as_slice(),
        b"limit\t3\t0\tA\tA\t0\n",
        b"fault\t13\t130\t0\n",
    )?;
    // with 255 standing one bound more has room, and two have not
    let text = lines(
        heap,
        b"event\tA\nlinear\tA\tA\t-\t0\n",
        b"linear\tA\tA\t0\t0\n",
        127,
    )?;
    prints_after(&rt, text.as_slice(), b"delay\tA\tA\t-\t0\n", b"")?;
    prints_after(
        &rt,
        text.as_slice(),
        b"delay\tA\tA\t0\t0\n",
        b"fault\t12\t130\t0\n",
    )
}

const BLANK: Need = Need {
    from: 0,
    to: 0,
    most: 0,
};

const FULL: Need = Need {
    from: 1,
    to: 2,
    most: 3,
};

#[test]
fn a_load_starts_anew(rt: HostRuntime) -> Result<(), Fail> {
    let mut sheet = Drawn::open(rt.alloc(), Vote {})?;
    let mut slots = [FULL; 3];
    let _ = sheet.event(b"old");
    let text = b"event\tA\nevent\tB\nlinear\tA\tB\t-\t5\nneed\tA\tB\t5\n";
    assert!(rt; load(text, &mut sheet, &mut slots) == Ok(1));
    assert!(rt; sheet.event_count() == 2 && sheet.bound_count() == 1);
    assert!(rt; sheet.number_of(b"old") == None);
    assert!(rt;
        slots[0]
            == Need {
                from: 0,
                to: 1,
                most: 5
            }
    );
    assert!(rt; slots[1] == BLANK && slots[2] == BLANK);
    Ok(())
}

#[test]
fn a_refused_load_leaves_nothing(rt: HostRuntime) -> Result<(), Fail> {
    let mut sheet = Drawn::open(rt.alloc(), Vote {})?;
    let mut slots = [FULL; 2];
    let text = b"event\tA\nevent\tB\nlinear\tA\tB\t-\t5\nneed\tA\tB\t5\nneed\tA\tC\t5\n";
    assert!(rt; load(text, &mut sheet, &mut slots).is_err());
    assert!(rt; sheet.event_count() == 0 && sheet.bound_count() == 0);
    assert!(rt; slots[0] == BLANK && slots[1] == BLANK);
    // two needs and one slot
    let text = b"event\tA\nneed\tA\tA\t5\nneed\tA\tA\t6\n";
    assert!(rt; load(text, &mut sheet, &mut slots[..1]).is_err());
    assert!(rt; sheet.event_count() == 0 && slots[0] == BLANK);
    assert!(rt; load(text, &mut sheet, &mut slots) == Ok(2));
    assert!(rt; slots[1].most == 6);
    Ok(())
}
