// A place, a move record, and the counts of a job, by value.
ghost use Rattle.std.specs.Prelude.{◌≡◌};
ghost use Rattle.rules.specs.Job.{entry_number};

// A state of the cabinet with a goal state that has read that state's label.
#[derive(Clone, Copy, Debug, PartialEq, Eq)]
pub struct Place {
    pub state: u16,
    pub goal: u16,
}

// A record of the table: the action, taken at the state, may lead to the outcome. Records are in the order of their fields.
#[derive(Clone, Copy, Debug, PartialEq, Eq, PartialOrd, Ord)]
pub struct Move {
    pub state: u16,
    pub action: u8,
    pub outcome: u16,
}

// What Counts says: how many states, actions, propositions and goal states a job has, and with which state and goal state it starts.
#[derive(Clone, Copy, Debug, PartialEq, Eq)]
pub struct Counts {
    pub states: usize,
    pub actions: u8,
    pub propositions: u8,
    pub goals: usize,
    pub first: usize,
    pub first_goal: usize,
}

impl Place {
    // The number of the place's entry in a plan for so many goal states.
    pub fn entry_number(self, goals: u16) -> usize
        ensures { result ≡ entry_number goals self }
    {
        usize::from(self.state) * usize::from(goals) + usize::from(self.goal)
    }
}

impl Move {
    // The state, the action and the outcome, as any figures can be compared with them.
    pub fn figures(self) -> (usize, usize, usize)
        ensures { result ≡ (self.state, self.action, self.outcome) }
    {
        (
            usize::from(self.state),
            usize::from(self.action),
            usize::from(self.outcome),
        )
    }

    // The state and the action.
    pub fn pair(self) -> (u16, u8)
        ensures { result ≡ (self.state, self.action) }
    {
        (self.state, self.action)
    }
}
