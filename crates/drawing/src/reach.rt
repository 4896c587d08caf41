// The places that a run can stand at, breadth first from the start: by the plan's own moves, or by every move.
ghost use Rattle.std.specs.Prelude.{◌≡◌, ◌%◌, ◌≤◌, ◌<◌, length};
ghost use Rattle.rules.specs.Bytes.{said};
ghost use Rattle.rules.specs.Job.{entered, entry_number};
ghost use Rattle.job.specs.Layout.{Fit};
ghost use Rattle.drawing.specs.Queue.{Grown};

use game::entry::Entry;
use job::layout::Layout;
use rules::answer::Value;
use telling::range::of_state;

// How many places a queue has room for.
pub const ROOM: usize = 16384;

// The moves by which places are reached: the plan's own, or every one.
#[derive(Clone, Copy, Debug, PartialEq, Eq)]
pub enum Moves {
    Own,
    All,
}

// Puts place i at the end of the queue, where it did not stand there before.
fn enter(queue: &mut [u16], marks: &mut [u8], n: usize, i: usize) -> usize
    requires { n ≤ length queue.old }
    ensures { Grown n result queue.old queue.new }
{
    if queue.len() <= n || marks.len() <= i || marks[i] == 1 {
        return n;
    }
    marks[i] = 1;
    queue[n] = (i % 65536) as u16;
    n + 1
}

// The number of the place that record k enters from place i.
pub fn target(job: &[u8], l: Layout, i: usize, k: usize) -> usize
    requires fit { Fit job.now l }
    requires k_lt_records { k < l.records }
    ensures { result ≡ entry_number l.goals (entered (said job.now) (i % l.goals) ((said job.now).move k).outcome) }
{
    let m = job::ask::move_at(job, l, k);
    let p = job::ask::place_entered(job, l, i % l.goals, usize::from(m.outcome));
    p.entry_number(l.goals as u16)
}

// Puts what record k enters from place i at the end of the queue, if it is of the action, or all moves are meant.
fn enter_by(
    queue: &mut [u16],
    marks: &mut [u8],
    n: usize,
    job: &[u8],
    l: Layout,
    k: usize,
    i: usize,
    action: u8,
    moves: Moves,
) -> usize
    requires n_in_bounds { n ≤ length queue.old }
    requires fit { Fit job.now l }
    requires k_lt_records { k < l.records }
    ensures { Grown n result queue.old queue.new }
{
    let m = job::ask::move_at(job, l, k);
    if moves == Moves::All || m.action == action {
        enter(queue, marks, n, target(job, l, i, k))
    } else {
        n
    }
}

// Puts all that can be entered from place i at the end of the queue, by the action or by all.
fn enter_all(
    queue: &mut [u16],
    marks: &mut [u8],
    n: usize,
    job: &[u8],
    l: Layout,
    i: usize,
    action: u8,
    moves: Moves,
) -> usize
    requires n_in_bounds { n ≤ length queue.old }
    requires fit { Fit job.now l }
    ensures { Grown n result queue.old queue.new }
{
    let r = of_state(job, l, i / l.goals);
    let mut m = n;
    for k in r.from..r.to {
        m = enter_by(queue, marks, m, job, l, k, i, action, moves);
    }
    m
}

// Whether the goal is met at a place, by its entry: a run ends there.
pub fn is_met(e: Entry) -> bool {
    Value::try_from(e.value) == Ok(Value::Winning) && e.named().is_none()
}

// Puts all that can be entered from place i at the end of the queue.
fn leave(
    queue: &mut [u16],
    marks: &mut [u8],
    n: usize,
    job: &[u8],
    l: Layout,
    plan: &[u8],
    i: usize,
    moves: Moves,
) -> usize
    requires n_in_bounds { n ≤ length queue.old }
    requires fit { Fit job.now l }
    ensures { Grown n result queue.old queue.new }
{
    if plan.len() / 4 <= i {
        return n;
    }
    let e = rules::entry::read_entry(plan, i);
    if is_met(e) {
        return n;
    }
    enter_all(queue, marks, n, job, l, i, e.action, moves)
}

// Lists the places that a run can stand at, and answers how many these are.
pub fn reach(
    queue: &mut [u16],
    marks: &mut [u8],
    job: &[u8],
    l: Layout,
    plan: &[u8],
    moves: Moves,
) -> usize
    requires { Fit job.now l }
    ensures { Grown 0 result queue.old queue.new }
{
    let p = job::ask::place_entered(job, l, l.first_goal, l.first);
    let start = p.entry_number(l.goals as u16);
    let mut n = enter(queue, marks, 0, start);
    // no `for`, since n grows in the loop
    let mut k: usize = 0;
    while k < n {
        let i = usize::from(queue[k]);
        n = leave(queue, marks, n, job, l, plan, i, moves);
        k += 1;
    }
    n
}
