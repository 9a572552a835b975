//! Verdicts as lines of output.
ghost use Rattle.std.specs.Prelude.{Some};
ghost use Rattle.verdict.specs.Lines.{line_of};

use crate::verdict::Verdict;
use refusals::refusal::Refusal;
use std::fmt;

// The fields of its line, without a line feed.
impl fmt::Display for Verdict {
    ghost output = { λ v. Some (line_of v) };

    fn fmt<W: fmt::Write>(&self, f: &mut fmt::Formatter<W>) -> fmt::Result {
        match self {
            Verdict::Accepted(answer) => {
                write!(f, "accepted\t{}\t{}", answer.rows, answer.outcomes)
            }
            Verdict::Unreadable(fault) => write!(f, "{}", Refusal::from(*fault)),
            Verdict::Refused(fault) => write!(f, "{}", Refusal::from(*fault)),
        }
    }
}
