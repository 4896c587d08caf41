// The four tables of names that a text lists.
ghost use Rattle.std.specs.Prelude.{◌≤◌};
ghost use Rattle.lines.specs.Tables.{count_of};

use lines::names::Names;

/// The names of states, actions, facts and goal states, no more of each than a job has room for.
#[derive(Clone, Copy, Debug)]
pub struct Tables<'a> {
    pub states: Names<'a>,
    pub actions: Names<'a>,
    pub facts: Names<'a>,
    pub goals: Names<'a>,
    ghost few_states: { count_of states ≤ 512 },
    ghost few_actions: { count_of actions ≤ 16 },
    ghost few_facts: { count_of facts ≤ 6 },
    ghost few_goals: { count_of goals ≤ 32 },
}
