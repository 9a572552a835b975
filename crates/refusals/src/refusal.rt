//! Refusals as three numbers.
ghost use Rattle.std.specs.Prelude.{◌≡◌, Some};
ghost use Rattle.refusals.specs.declared.refusal.Refusal.{Refusal};
ghost use Rattle.refusals.specs.Lines.{refused_line};

use std::fmt;

/// A refusal's number, and the place and the detail that it names, or 0.
#[derive(Clone, Copy, PartialEq, Eq, Debug)]
pub struct Refusal {
    pub number: u8,
    pub place: u32,
    pub detail: u32,
}

/// Why something is refused.
pub trait Refuses: Copy {
    // what is reported of it
    ghost refusal: { Self → Refusal };

    /// The number by which it is reported.
    fn number(self) -> u8
        ensures { result ≡ (refusal self).number };

    /// The place that it names, or 0.
    fn place(self) -> u32
        ensures { result ≡ (refusal self).place };

    /// What it names at that place, or 0.
    fn detail(self) -> u32
        ensures { result ≡ (refusal self).detail };
}

impl<F: Refuses> From<F> for Refusal {
    ghost from_gives = { λ f r. r ≡ F.Refuses.refusal f };

    fn from(fault: F) -> Refusal {
        Refusal {
            number: fault.number(),
            place: fault.place(),
            detail: fault.detail(),
        }
    }
}

// The fields of its line, without a line feed.
impl fmt::Display for Refusal {
    ghost output = { λ r. Some (refused_line r) };

    fn fmt<W: fmt::Write>(&self, f: &mut fmt::Formatter<W>) -> fmt::Result {
        write!(
            f,
            "refused\t{}\t{}\t{}",
            self.number, self.place, self.detail
        )
    }
}
