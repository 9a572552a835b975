//! What a goal is made of.
ghost use Rattle.std.specs.Prelude.{◌≡◌, nat_lt, slice_index};
ghost use Rattle.std.specs.List.{list_all};
ghost use Rattle.goal.specs.Form.{fit};

/// How many states a goal has at most.
pub const MOST_STATES: usize = 16;

/// How many labels there are, from 0: a state has a next state for each.
pub const LABELS: usize = 32;

/// The largest priority.
pub const TOP_PRIORITY: u8 = 5;

/// A state of the automaton: its priority, and the state that follows on each label.
#[derive(Clone, Copy)]
pub struct GoalState {
    pub priority: u8,
    pub next: [u8; LABELS],
}

impl GoalState {
    /// Whether it may be a state of a goal with so many.
    pub(crate) fn is_fit(&self, count: usize) -> bool
        ensures { result ≡ fit count self.now }
    {
        self.priority <= TOP_PRIORITY && all_states(&self.next, count)
    }

    /// The state that follows on a label: state 0 on one that there is not.
    pub(crate) fn after(&self, label: u8) -> u8
        ensures { result ≡ slice_index self.now.next label }
    {
        self.next.get(label as usize).copied().unwrap_or(0)
    }
}

fn all_states(states: &[u8], count: usize) -> bool
    ensures { result ≡ list_all (λ s. nat_lt s count) states.now }
{
    states.iter().all(|state| (*state as usize) < count)
}
