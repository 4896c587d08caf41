// One round of a phase over the larger places: each that has an action of the phase's kind joins the set, and its entry is written.
ghost use Rattle.std.specs.Prelude.{◌≡◌, ◌+◌, ◌*◌, ◌<◌, ◌≤◌, length};
ghost use Rattle.rules.specs.Bytes.{said};
ghost use Rattle.rules.specs.Job.{place};
ghost use Rattle.job.specs.Layout.{Fit};
ghost use Rattle.labelling.specs.Scan.{Range};
ghost use Rattle.labelling.proofs.Choosing.{LowestCounted};
ghost use Rattle.larger.specs.Larger.{larger};
ghost use Rattle.trembling.specs.Sets.{most_larger};
ghost use Rattle.trembling.specs.Round.{Ready, wanted_larger, Passed, BegunAll};

use crate::set::LargerSet;
use game::entry::Entry;
use job::layout::Layout;
use phases::phase::Phase;
use rules::answer::Value;

// What `look` answers, put into each of its calls for one phase: what the phase does not ask is not gathered.
#[inline(always)]
fn look_for(
    job: &[u8],
    l: Layout,
    old: &LargerSet,
    k: usize,
    s: usize,
    q: usize,
    start: usize,
    end: usize,
    phase: Phase,
) -> Option<u8>
    requires fit { Fit job.now l }
    requires k_bound { k ≤ 3 }
    requires q_lt_goals { q < l.goals }
    requires range { Range (said job.now) s start end }
    ensures { LowestCounted (wanted_larger job.now l phase old.now.words (larger k (place s q)))
        (said job.now).actions result }
{
    let places = l.states * l.goals;
    let own = k * places;
    if k == 0 {
        let x = crate::scan::scan(job, l, old, s, q, start, end, own, own);
        return labelling::scan::choose(x.own, phase);
    }
    let less = (k - 1) * places;
    let x = crate::scan::scan(job, l, old, s, q, start, end, own, less);
    crate::scan::choose_slip(x, phase)
}

// The lowest action that the round looks for at the place of state s and goal state q with k slips left. The phase and the form are the same for all
// records, and are told apart before these are looked through: the same is handed over twice, so that it is made for each form by itself. Where there
// are no records there is nothing to tell apart.
fn look(
    job: &[u8],
    l: Layout,
    old: &LargerSet,
    k: usize,
    s: usize,
    q: usize,
    start: usize,
    end: usize,
    phase: Phase,
) -> Option<u8>
    requires fit { Fit job.now l }
    requires k_bound { k ≤ 3 }
    requires q_lt_goals { q < l.goals }
    requires range { Range (said job.now) s start end }
    ensures { LowestCounted (wanted_larger job.now l phase old.now.words (larger k (place s q)))
        (said job.now).actions result }
{
    if end <= start {
        return look_for(job, l, old, k, s, q, start, end, phase);
    }
    match phase {
        Phase::Winning => l.told_apart(
            |l| look_for(job, l, old, k, s, q, start, end, Phase::Winning),
            |l| look_for(job, l, old, k, s, q, start, end, Phase::Winning),
        ),
        Phase::Pending => l.told_apart(
            |l| look_for(job, l, old, k, s, q, start, end, Phase::Pending),
            |l| look_for(job, l, old, k, s, q, start, end, Phase::Pending),
        ),
    }
}

// One larger place in a round: it joins the set if it is not in the old one and has an action of the phase's kind.
fn label_place(
    new: &mut LargerSet,
    plan: &mut [u8],
    job: &[u8],
    l: Layout,
    old: &LargerSet,
    k: usize,
    s: usize,
    q: usize,
    start: usize,
    end: usize,
    phase: Phase,
    number: u16,
)
    requires ready { Ready job.now l k s start end plan.old }
    requires q_lt_goals { q < l.goals }
    ensures { Passed job.now l phase number old.now.words
        (k * (l.states * l.goals) + (s * l.goals + q)) (k * (l.states * l.goals) + (s * l.goals + q) + 1)
        new.old.words plan.old new.new.words plan.new }
{
    let i = k * (l.states * l.goals) + (s * l.goals + q);
    if old.has(i) {
        return;
    }
    if let Some(action) = look(job, l, old, k, s, q, start, end, phase) {
        new.put(i);
        rules::entry::write_entry(
            plan,
            i,
            Entry {
                value: Value::from(phase).number(),
                action,
                number,
            },
        );
    }
}

// The places of one state in a round, with k slips left.
fn label_state(
    new: &mut LargerSet,
    plan: &mut [u8],
    job: &[u8],
    l: Layout,
    old: &LargerSet,
    k: usize,
    s: usize,
    start: usize,
    end: usize,
    phase: Phase,
    number: u16,
)
    requires { Ready job.now l k s start end plan.old }
    ensures { Passed job.now l phase number old.now.words
        (k * (l.states * l.goals) + s * l.goals) (k * (l.states * l.goals) + (s * l.goals + l.goals))
        new.old.words plan.old new.new.words plan.new }
{
    for q in 0..l.goals {
        label_place(new, plan, job, l, old, k, s, q, start, end, phase, number);
    }
}

// The places with k slips left in a round, state by state.
fn label_slips(
    new: &mut LargerSet,
    plan: &mut [u8],
    job: &[u8],
    l: Layout,
    old: &LargerSet,
    k: usize,
    phase: Phase,
    number: u16,
)
    requires fit { Fit job.now l }
    requires k_bound { k ≤ 3 }
    requires goals_in_bounds { 4 * (k * (l.states * l.goals) + l.states * l.goals) ≤ length plan.old }
    ensures { Passed job.now l phase number old.now.words
        (k * (l.states * l.goals)) (k * (l.states * l.goals) + l.states * l.goals)
        new.old.words plan.old new.new.words plan.new }
{
    let mut start: usize = 0;
    for s in 0..l.states {
        let end = labelling::range::range_end(job, l, s, start);
        label_state(new, plan, job, l, old, k, s, start, end, phase, number);
        start = end;
    }
}

// One round: every larger place, whatever the slips that are left, from one set.
pub fn one_round(
    plan: &mut [u8],
    job: &[u8],
    l: Layout,
    set: LargerSet,
    slips: usize,
    phase: Phase,
    number: u16,
) -> LargerSet
    requires fit { Fit job.now l }
    requires slips_bound { slips ≤ 3 }
    requires goals_in_bounds { 4 * ((slips + 1) * (l.states * l.goals)) ≤ length plan.old }
    ensures { Passed job.now l phase number set.words 0 ((slips + 1) * (l.states * l.goals))
        set.words plan.old result.words plan.new }
{
    let mut new = set;
    for k in 0..slips + 1 {
        label_slips(&mut new, plan, job, l, &set, k, phase, number);
    }
    new
}

// Round 0: the accepted larger places, and an entry for every one.
pub fn begin(plan: &mut [u8], job: &[u8], l: Layout, slips: usize) -> LargerSet
    requires fit { Fit job.now l }
    requires slips_bound { slips ≤ 3 }
    requires goals_in_bounds { 4 * ((slips + 1) * (l.states * l.goals)) ≤ length plan.old }
    ensures { BegunAll job.now l ((slips + 1) * (l.states * l.goals)) plan.old result.words plan.new }
{
    let mut new = LargerSet::empty();
    let places = l.states * l.goals;
    for i in 0..(slips + 1) * places {
        let x = i % places;
        let accepted = job::ask::is_accepted(job, l, x / l.goals, x % l.goals);
        phases::begin::begin_place(&mut new, plan, i, accepted);
    }
    new
}
