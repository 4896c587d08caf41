// What is shown: a job, a plan, and the names by which these are told.
use crate::names::Table;
use job::layout::Layout;

// A job with its layout, a plan, and the names of the job's states, actions and goal states. Those of the goal states may stand in a text of their own.
#[derive(Clone, Copy, Debug)]
pub struct Shown<'a> {
    pub job: &'a [u8],
    pub layout: Layout,
    pub plan: &'a [u8],
    pub states: Table<'a>,
    pub actions: Table<'a>,
    pub goals: Table<'a>,
}
