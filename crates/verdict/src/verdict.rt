//! What is said of a case.
ghost use Rattle.std.specs.Prelude.{◌≡◌};
ghost use Rattle.verdict.specs.declared.verdict.Verdict.TheVariants.{Unreadable};
ghost use Rattle.verdict.specs.Judged.{said};

use casetext::fault::TextFault;
use table::accepted::Accepted;
use table::fault::Fault;

/// The plan wins, the text cannot be read, or the plan is refused.
#[derive(Clone, Copy)]
pub enum Verdict {
    Accepted(Accepted),
    Unreadable(TextFault),
    Refused(Fault),
}

// What the check answers, as a verdict.
impl From<Result<Accepted, Fault>> for Verdict {
    ghost from_gives = { λ answer v. v ≡ said answer };

    fn from(answer: Result<Accepted, Fault>) -> Verdict {
        match answer {
            Ok(accepted) => Verdict::Accepted(accepted),
            Err(fault) => Verdict::Refused(fault),
        }
    }
}

// A text that cannot be read, as a verdict.
impl From<TextFault> for Verdict {
    ghost from_gives = { λ fault v. v ≡ Unreadable fault };

    fn from(fault: TextFault) -> Verdict {
        Verdict::Unreadable(fault)
    }
}
