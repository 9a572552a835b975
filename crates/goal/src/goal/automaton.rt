//! Making goals, and what one answers.
ghost use Rattle.std.specs.Prelude.{◌≡◌, length, if◌then◌else◌, Some, None};
ghost use Rattle.std.specs.Option.{option_map};
ghost use Rattle.std.specs.Result.{result_ok};
ghost use Rattle.std.specs.List.{list_all};
ghost use Rattle.goal.specs.Form.{fit, in_form};
ghost use Rattle.goal.specs.Automaton.{states_of, state_of, exists, priority_in, after};

use super::Goal;
use crate::fault::GoalFault;
use crate::state::{GoalState, LABELS, MOST_STATES};

fn all_fit(states: &[GoalState]) -> bool
    ensures { result ≡ list_all (fit (length states.now)) states.now }
{
    let count = states.len();
    states.iter().all(|state| state.is_fit(count))
}

fn is_in_form(states: &[GoalState]) -> bool
    ensures { result ≡ in_form states.now }
{
    !states.is_empty() && states.len() <= MOST_STATES && all_fit(states)
}

impl Goal {
    /// The goal of these states, if they are in form.
    pub fn new(states: &[GoalState]) -> Result<Goal, GoalFault>
        ensures { option_map states_of (result_ok result) ≡ (if in_form states.now then Some states.now else None) }
    {
        if !is_in_form(states) {
            return Err(GoalFault);
        }
        let blank = GoalState {
            priority: 0,
            next: [0; LABELS],
        };
        let mut all = [blank; MOST_STATES];
        all[..states.len()].copy_from_slice(states);
        Ok(Goal {
            count: states.len() as u8,
            states: all,
        })
    }

    /// Whether the goal has this state.
    pub fn has_state(&self, state: u8) -> bool
        ensures { result ≡ exists self.now state }
    {
        state < self.count
    }

    /// The state with this number.
    fn state(&self, number: u8) -> Option<GoalState>
        ensures { result ≡ state_of self.now number }
    {
        let states = &self.states[..self.count as usize];
        states.get(number as usize).copied()
    }

    /// The priority of a state: 0 where it does not exist.
    pub(crate) fn priority(&self, state: u8) -> u8
        ensures { result ≡ priority_in self.now state }
    {
        self.state(state).map_or(0, |s| s.priority)
    }

    /// The state after a state on a label: 0 where there is none.
    pub(crate) fn after(&self, state: u8, label: u8) -> u8
        ensures { result ≡ after self.now state label }
    {
        self.state(state).map_or(0, |s| s.after(label))
    }
}
