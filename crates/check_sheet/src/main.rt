//! Reads a timing sheet from standard input and prints what is found.
#![tactic(auto)]

use std::io::{Read, Write};

/// One byte more than a text may have shows that it is too long.
// a figure, not one more than text::checks::MAX_BYTES: the program uses report alone
const LIMIT: u64 = 65_537;

fn main(rt: HostRuntime) -> anyhow::Result<()> {
    let mut text = Vec::new(rt.alloc());
    rt.stdin().take(LIMIT).read_to_end(&mut text)?;
    let found = report::report(rt.alloc(), text.as_slice())?;
    rt.stdout().write_all(found.as_slice())?;
    Ok(())
}
