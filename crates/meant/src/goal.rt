// The goal and the start of the job that was written, read again: whether they are those that were meant.
ghost use Rattle.std.specs.Prelude.{◌≡◌, true, List, ◌↔◌, ℕ};
ghost use Rattle.rules.specs.Bytes.{said};
ghost use Rattle.job.specs.Layout.{Fit};
ghost use Rattle.meant.specs.Aimed.{Aimed};

use job::layout::Layout;
use lines::word::is_same;

// Whether the job's Goal body is the first n bytes of the given one, and its first goal state the given one.
pub fn is_goal(job: &[u8], l: Layout, body: &[u8], n: usize, first: usize) -> bool
    requires { Fit job.now l }
    ensures { (result ≡ true) ↔ Aimed job.now body.now n first }
{
    n <= body.len() && l.first_goal == first && is_same(&job[l.goal_at..], &body[..n])
}

// Whether a run of a job with this layout starts in the given state.
pub fn is_start(l: Layout, start: usize) -> bool
    ensures { (b : List ℕ) → Fit b l → (result ≡ true) ↔ ((said b).first ≡ start) }
{
    l.first == start
}
