// The records of one state, looked through for one place: which actions are open, which may lead into a set of places, which out of it.
ghost use Rattle.std.specs.Prelude.{◌≡◌, ◌+◌, ◌*◌, ◌<◌};
ghost use Rattle.rules.specs.Bytes.{said};
ghost use Rattle.rules.specs.Job.{entered, entry_number, place};
ghost use Rattle.job.specs.Layout.{Fit};
ghost use Rattle.phases.specs.Wanted.{in_set};
ghost use Rattle.labelling.specs.Scan.{Range, Tallied, Scanned, LowestPassing, tallied_for};

use job::layout::Layout;
use phases::phase::Phase;
use sets::actions::ActionSet;
use sets::places::PlaceSet;

// Sets of actions at a place: those with a record, those with an outcome in the set of places, and those with one outside it.
#[derive(Clone, Copy, Debug, PartialEq, Eq)]
pub struct Tally {
    pub opens: ActionSet,
    pub held: ActionSet,
    pub spoilt: ActionSet,
}

// The number, among the entries, of the place that is entered with state t from goal state q.
pub fn number_entered(job: &[u8], l: Layout, q: usize, t: usize) -> usize
    requires fit { Fit job.now l }
    requires q_lt_goals { q < l.goals }
    requires t_lt_states { t < l.states }
    ensures { (result < l.states * l.goals) × (result ≡ entry_number l.goals (entered (said job.now) q t)) }
{
    let g = job::ask::next_goal(job, l, q, t);
    t * l.goals + g
}

// Whether the place that is entered with state t from goal state q is in the set.
fn is_inside(job: &[u8], l: Layout, places: &PlaceSet, q: usize, t: usize) -> bool
    requires fit { Fit job.now l }
    requires q_lt_goals { q < l.goals }
    requires t_lt_states { t < l.states }
    ensures { result ≡ in_set l.goals places.now.words (entered (said job.now) q t) }
{
    places.has(number_entered(job, l, q, t))
}

// The tally with one record more: its action is open, and held or spoilt by its outcome.
pub fn add_record(x: Tally, action: u8, inside: bool) -> Tally
    ensures { Tallied x action inside result }
{
    let opens = x.opens.with(action);
    if inside {
        Tally {
            opens,
            held: x.held.with(action),
            ..x
        }
    } else {
        Tally {
            opens,
            spoilt: x.spoilt.with(action),
            ..x
        }
    }
}

// The tally of the place of state s and goal state q: the records of s are those from start up to end.
pub fn scan(
    job: &[u8],
    l: Layout,
    places: &PlaceSet,
    s: usize,
    q: usize,
    start: usize,
    end: usize,
) -> Tally
    requires fit { Fit job.now l }
    requires q_lt_goals { q < l.goals }
    requires range { Range (said job.now) s start end }
    ensures { Scanned (said job.now) (in_set l.goals places.now.words) (place s q) result }
{
    let none = ActionSet::none();
    let mut x = Tally {
        opens: none,
        held: none,
        spoilt: none,
    };
    for k in start..end {
        let m = job::ask::move_at(job, l, k);
        let inside = is_inside(job, l, places, q, usize::from(m.outcome));
        x = add_record(x, m.action, inside);
    }
    x
}

// The lowest action that the phase looks for: one that is open and not spoilt, or one that is held.
pub fn choose(x: Tally, phase: Phase) -> Option<u8>
    ensures { LowestPassing (tallied_for phase x) result }
{
    match phase {
        Phase::Winning => x.opens.without(x.spoilt).lowest(),
        Phase::Pending => x.held.lowest(),
    }
}
