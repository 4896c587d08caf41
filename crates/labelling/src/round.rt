// One round of a phase: each place that has an action of the phase's kind joins the set, and its entry is written.
ghost use Rattle.std.specs.Prelude.{◌+◌, ◌*◌, ◌<◌, ◌≤◌, length};
ghost use Rattle.job.specs.Layout.{Fit};
ghost use Rattle.phases.specs.Round.{Passed};
ghost use Rattle.labelling.specs.Round.{Ready};

use game::entry::Entry;
use job::layout::Layout;
use phases::phase::Phase;
use rules::answer::Value;
use rules::place::Place;
use sets::places::PlaceSet;

// One place in a round: it joins the set if it is not in the old one and has an action of the phase's kind.
fn label_place(
    new: &mut PlaceSet,
    plan: &mut [u8],
    job: &[u8],
    l: Layout,
    old: &PlaceSet,
    s: usize,
    q: usize,
    start: usize,
    end: usize,
    phase: Phase,
    number: u16,
)
    requires ready { Ready job.now l s start end plan.old }
    requires q_lt_goals { q < l.goals }
    ensures { Passed job.now l phase number old.now.words (s * l.goals + q) (s * l.goals + q + 1)
        new.old.words plan.old new.new.words plan.new }
{
    let p = Place {
        state: s as u16,
        goal: q as u16,
    };
    let i = p.entry_number(l.goals as u16);
    if old.has(i) {
        return;
    }
    let tally = crate::scan::scan(job, l, old, s, q, start, end);
    if let Some(action) = crate::scan::choose(tally, phase) {
        new.put(i);
        rules::entry::write_entry(
            plan,
            i,
            Entry {
                value: Value::from(phase).number(),
                action,
                number,
            },
        );
    }
}

// The places of one state in a round.
fn label_state(
    new: &mut PlaceSet,
    plan: &mut [u8],
    job: &[u8],
    l: Layout,
    old: &PlaceSet,
    s: usize,
    start: usize,
    end: usize,
    phase: Phase,
    number: u16,
)
    requires { Ready job.now l s start end plan.old }
    ensures { Passed job.now l phase number old.now.words (s * l.goals) (s * l.goals + l.goals)
        new.old.words plan.old new.new.words plan.new }
{
    for q in 0..l.goals {
        label_place(new, plan, job, l, old, s, q, start, end, phase, number);
    }
}

// One round: every place, state by state.
pub fn one_round(
    plan: &mut [u8],
    job: &[u8],
    l: Layout,
    set: PlaceSet,
    phase: Phase,
    number: u16,
) -> PlaceSet
    requires fit { Fit job.now l }
    requires goals_in_bounds { 4 * (l.states * l.goals) ≤ length plan.old }
    ensures { Passed job.now l phase number set.words 0 (l.states * l.goals)
        set.words plan.old result.words plan.new }
{
    let mut new = set;
    let mut start: usize = 0;
    for s in 0..l.states {
        let end = crate::range::range_end(job, l, s, start);
        label_state(&mut new, plan, job, l, &set, s, start, end, phase, number);
        start = end;
    }
    new
}
