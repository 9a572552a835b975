//! The case on standard input.
use casefile::limits::MAX_TEXT;
use std::io;
use std::io::Read;

/// One byte more than a text may have: enough to see that it is too long.
const ENOUGH: u64 = MAX_TEXT as u64 + 1;

pub(crate) fn read_text(rt: &HostRuntime) -> io::Result<Vec<u8>> {
    let mut text = Vec::new(rt.alloc());
    rt.stdin().take(ENOUGH).read_to_end(&mut text)?;
    Ok(text)
}

/// The line in which the first row of a readable text stands: rows are its last lines.
pub(crate) fn first_row_line(text: &[u8]) -> usize {
    text.split(|byte| *byte == b'\n')
        .take_while(|line| !line.starts_with(b"r"))
        .count()
        .saturating_add(1)
}
