// Where the records of a state lie, and those of a state and an action. Records ascend, so each time it is one range.
ghost use Rattle.std.specs.Prelude.{eqb};
ghost use Rattle.rules.specs.Bytes.{said};
ghost use Rattle.rules.specs.Job.{is_from};
ghost use Rattle.job.specs.Layout.{Fit};
ghost use Rattle.telling.specs.Ranges.{Together};

use job::ask::count_before;
use job::layout::Layout;

// Records from one number up to another, which is not among them.
#[derive(Clone, Copy, Debug, PartialEq, Eq)]
pub struct Range {
    pub from: usize,
    pub to: usize,
}

// The records of state s.
pub fn of_state(job: &[u8], l: Layout, s: usize) -> Range
    requires { Fit job.now l }
    ensures { Together (said job.now) (λ m. eqb m.state s) result.from result.to }
{
    let from = count_before(job, l, s, 0, 0);
    let to = count_before(job, l, s, l.actions as usize, 0);
    Range { from, to }
}

// The records of state s and action a.
pub fn of_action(job: &[u8], l: Layout, s: usize, a: usize) -> Range
    requires { Fit job.now l }
    ensures { Together (said job.now) (λ m. is_from m s a) result.from result.to }
{
    let from = count_before(job, l, s, a, 0);
    let to = count_before(job, l, s, a, l.states);
    Range { from, to }
}
