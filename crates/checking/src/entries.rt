// The entries of a plan, judged by the right plan in order.
ghost use Rattle.std.specs.Prelude.{◌≡◌, not, ◌||◌, ◌+◌, ◌*◌, ◌<◌, ◌≤◌, length};
ghost use Rattle.rules.specs.Job.{entered, place};
ghost use Rattle.rules.specs.Bytes.{said};
ghost use Rattle.rules.specs.Plan.{planned_entry};
ghost use Rattle.job.specs.Layout.{Fit};
ghost use Rattle.labelling.specs.Scan.{Range};
ghost use Rattle.checking.specs.Fits.{outcome_test, fits_at, Until, Looked, Ready};

use game::entry::Entry;
use job::layout::Layout;
use rules::answer::Value;

// What the records of a state show of an action: whether an outcome does, and whether one does not.
#[derive(Clone, Copy, Debug, PartialEq, Eq)]
pub struct Seen {
    pub held: bool,
    pub spoilt: bool,
}

// Whether an outcome with the right entry e does, where the right entry of the place is r.
fn outcome_does(r: Entry, e: Entry) -> bool
    ensures { result ≡ outcome_test r e }
{
    match (Value::try_from(r.value), Value::try_from(e.value)) {
        (Ok(Value::Winning), Ok(Value::Winning)) => e.number < r.number,
        (Ok(Value::Winning), _) => false,
        (_, Ok(Value::Winning)) => r.number == 1,
        (_, Ok(Value::Pending)) => e.number as usize + 1 == r.number as usize,
        _ => false,
    }
}

// Whether the place that is entered with state t from goal state q does.
fn entered_does(job: &[u8], l: Layout, own: &[u8], q: usize, t: usize, r: Entry) -> bool
    requires fit { Fit job.now l }
    requires q_lt_goals { q < l.goals }
    requires t_lt_states { t < l.states }
    requires goals_in_bounds { 4 * (l.states * l.goals) ≤ length own.now }
    ensures { result ≡ outcome_test r (planned_entry (said job.now) own.now (entered (said job.now) q t)) }
{
    let p = job::ask::place_entered(job, l, q, t);
    let e = rules::entry::read_entry(own, p.entry_number(l.goals as u16));
    outcome_does(r, e)
}

// What is seen with one outcome more, which does or does not.
fn see(x: Seen, does: bool) -> Seen
    ensures { (result.held ≡ (does || x.held)) × (result.spoilt ≡ (not does || x.spoilt)) }
{
    Seen {
        held: does || x.held,
        spoilt: !does || x.spoilt,
    }
}

// What the records of state s, from start up to end, show of action a at the place with goal state q, of which the right entry is r.
fn look(
    job: &[u8],
    l: Layout,
    own: &[u8],
    s: usize,
    q: usize,
    start: usize,
    end: usize,
    a: u8,
    r: Entry,
) -> Seen
    requires fit { Fit job.now l }
    requires q_lt_goals { q < l.goals }
    requires goals_in_bounds { 4 * (l.states * l.goals) ≤ length own.now }
    requires range { Range (said job.now) s start end }
    ensures { Looked job.now own.now r (place s q) a result }
{
    let mut x = Seen {
        held: false,
        spoilt: false,
    };
    for k in start..end {
        let m = job::ask::move_at(job, l, k);
        if m.action != a {
            continue;
        }
        let does = entered_does(job, l, own, q, m.outcome as usize, r);
        x = see(x, does);
    }
    x
}

// Whether the entry of the place of state s and goal state q may stand there: the records of s are those from start up to end.
fn fits_place(
    job: &[u8],
    l: Layout,
    plan: &[u8],
    own: &[u8],
    s: usize,
    q: usize,
    start: usize,
    end: usize,
) -> bool
    requires ready { Ready job.now l plan.now own.now s start end }
    requires q_lt_goals { q < l.goals }
    ensures { result ≡ fits_at job.now own.now plan.now (s * l.goals + q) }
{
    let i = s * l.goals + q;
    let given = rules::entry::read_entry(plan, i);
    let right = rules::entry::read_entry(own, i);
    if given.value != right.value || given.number != right.number {
        return false;
    }
    if right.named().is_none() {
        return given.named().is_none();
    }
    let seen = look(job, l, own, s, q, start, end, given.action, right);
    match Value::try_from(right.value) {
        Ok(Value::Winning) => seen.held && !seen.spoilt,
        _ => seen.held,
    }
}

// The number of the first entry of state s that may not stand where it stands, or that of the next state's first.
fn fits_state(
    job: &[u8],
    l: Layout,
    plan: &[u8],
    own: &[u8],
    s: usize,
    start: usize,
    end: usize,
) -> usize
    requires { Ready job.now l plan.now own.now s start end }
    ensures { Until (fits_at job.now own.now plan.now) (s * l.goals) (s * l.goals + l.goals) result }
{
    let goals = l.goals;
    let first = s * goals;
    for q in 0..goals {
        if !fits_place(job, l, plan, own, s, q, start, end) {
            return first + q;
        }
    }
    first + goals
}

// The number of the first entry that may not stand where it stands, or the count of places.
pub fn fits_all(job: &[u8], l: Layout, plan: &[u8], own: &[u8]) -> usize
    requires fit { Fit job.now l }
    requires goals_in_bounds { 4 * (l.states * l.goals) ≤ length plan.now }
    requires goals_in_bounds_2 { 4 * (l.states * l.goals) ≤ length own.now }
    ensures { Until (fits_at job.now own.now plan.now) 0 (l.states * l.goals) result }
{
    let states = l.states;
    let goals = l.goals;
    let mut start: usize = 0;
    for s in 0..states {
        let end = labelling::range::range_end(job, l, s, start);
        let x = fits_state(job, l, plan, own, s, start, end);
        if x < s * goals + goals {
            return x;
        }
        start = end;
    }
    states * goals
}
