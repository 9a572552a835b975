//! Goals as automata.
ghost use Rattle.std.specs.Prelude.{◌≡◌, true, length, take};
ghost use Rattle.goal.specs.Form.{in_form};

use crate::state::{GoalState, MOST_STATES};

mod automaton;

/// A deterministic parity automaton that reads the labels of positions. Its states are the first
/// `count` of the array, which makes a goal `Copy`.
#[derive(Clone, Copy)]
pub struct Goal {
    count: u8,
    states: [GoalState; MOST_STATES],
    ghost counted: { length (take count states) ≡ count },
    ghost formed: { in_form (take count states) ≡ true },
}
