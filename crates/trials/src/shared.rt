// What the tests of several files need.
use report::report;
use std::process::Abort;
use std::test::Fail;

// Checks what is printed for a text.
pub(crate) fn prints(
    rt: &(impl Abort + AllocGlobal),
    text: &[u8],
    expected: &[u8],
) -> Result<(), Fail> {
    let out = report(rt.alloc(), text)?;
    assert!(rt; out.as_slice() == expected);
    Ok(())
}

// A name of an event, another for each number below 100.
pub(crate) fn event_name(number: u8) -> [u8; 3] {
    [b'E', b'0' + number / 10, b'0' + number % 10]
}
