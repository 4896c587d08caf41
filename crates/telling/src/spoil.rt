// What spoils an action at a place: a listed outcome from which the plan does not win.
ghost use Rattle.std.specs.Prelude.{◌≡◌, ◌*◌, ◌≤◌, ◌<◌, length};
ghost use Rattle.rules.specs.Bytes.{said};
ghost use Rattle.rules.specs.Answers.{value_number};
ghost use Rattle.rules.specs.Job.{entered, places};
ghost use Rattle.rules.specs.Plan.{planned_entry};
ghost use Rattle.job.specs.Layout.{Fit};
ghost use Rattle.telling.specs.Spoilt.{spoils, SpoiltBy, worst};

use crate::range::of_action;
use game::entry::Entry;
use job::layout::Layout;
use rules::answer::Value;

// What the plan says of the place that is entered with state t from goal state q.
pub fn entry_entered(job: &[u8], l: Layout, plan: &[u8], q: usize, t: usize) -> Entry
    requires fit { Fit job.now l }
    requires job_in_bounds { 4 * places (said job.now) ≤ length plan.now }
    requires q_lt_goals { (q < l.goals) × (t < l.states) }
    ensures { result ≡ planned_entry (said job.now) plan.now (entered (said job.now) q t) }
{
    let p = job::ask::place_entered(job, l, q, t);
    rules::entry::read_entry(plan, p.entry_number(l.goals as u16))
}

// Whether record k is an outcome of action a at the place of state s and goal state q, and the plan gives what it enters the value v at most.
fn is_spoiling(
    job: &[u8],
    l: Layout,
    plan: &[u8],
    s: usize,
    q: usize,
    a: usize,
    v: Value,
    k: usize,
) -> bool
    requires fit { Fit job.now l }
    requires job_in_bounds { 4 * places (said job.now) ≤ length plan.now }
    requires q_lt_goals { (q < l.goals) × (k < l.records) }
    ensures { result ≡ spoils (said job.now) plan.now s q a (value_number v) k }
{
    let (state, action, outcome) = job::ask::move_at(job, l, k).figures();
    (state, action) == (s, a) && entry_entered(job, l, plan, q, outcome).value <= u8::from(v)
}

// The last record that spoils action a at the place of state s and goal state q, by a value of v at most.
fn spoiler(
    job: &[u8],
    l: Layout,
    plan: &[u8],
    s: usize,
    q: usize,
    a: usize,
    v: Value,
) -> Option<usize>
    requires fit { Fit job.now l }
    requires job_in_bounds { 4 * places (said job.now) ≤ length plan.now }
    requires q_lt_goals { q < l.goals }
    ensures { SpoiltBy (said job.now) plan.now s q a (value_number v) result }
{
    let r = of_action(job, l, s, a);
    for k in (r.from..r.to).rev() {
        if is_spoiling(job, l, plan, s, q, a, v, k) {
            return Some(k);
        }
    }
    None
}

// The record that is told of action a: the last that spoils it by losing, or else the last that does by at most pending.
pub fn worst(job: &[u8], l: Layout, plan: &[u8], s: usize, q: usize, a: usize) -> Option<usize>
    requires fit { Fit job.now l }
    requires job_in_bounds { 4 * places (said job.now) ≤ length plan.now }
    requires q_lt_goals { q < l.goals }
    ensures { result ≡ worst (said job.now) plan.now s q a }
{
    match spoiler(job, l, plan, s, q, a, Value::Losing) {
        Some(k) => Some(k),
        None => spoiler(job, l, plan, s, q, a, Value::Pending),
    }
}
