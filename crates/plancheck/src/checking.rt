//! The check: one line with the verdict.
use crate::input::{first_row_line, read_text};
use crate::sentences::{TableSentence, TextSentence};
use casefile::room::Room;
use std::io;
use verdict::judge::judge;
use verdict::verdict::Verdict;

/// Writes a verdict on a text: its line, and for a refusal a sentence on standard error.
pub(crate) fn tell(rt: &HostRuntime, verdict: Verdict, text: &[u8]) -> io::Result<()> {
    rt.println(verdict)?;
    match verdict {
        Verdict::Accepted(_) => Ok(()),
        Verdict::Unreadable(fault) => eprintln!(rt; "refused: {}", TextSentence(fault)),
        Verdict::Refused(fault) => {
            let first_line = first_row_line(text);
            eprintln!(rt; "refused: {}", TableSentence { fault, first_line })
        }
    }
}

pub(crate) fn check_input(rt: &HostRuntime) -> io::Result<()> {
    let text = read_text(rt)?;
    let room = Room::take(rt.alloc())?;
    tell(rt, judge(room, text.as_slice()), text.as_slice())
}
