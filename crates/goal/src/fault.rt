//! Why a goal is declined.
use refusals::refusal::Refuses;

/// The states that were handed in are out of form or range.
#[derive(Clone, Copy)]
pub struct GoalFault;

impl Refuses for GoalFault {
    ghost refusal = { λ _. record { number = 3; place = 0; detail = 0 } };

    fn number(self) -> u8 {
        3
    }

    fn place(self) -> u32 {
        0
    }

    fn detail(self) -> u32 {
        0
    }
}
