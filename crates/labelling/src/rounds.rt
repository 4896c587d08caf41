// Rounds of a phase until one adds nothing, and both phases.
ghost use Rattle.std.specs.Prelude.{◌*◌, ◌≤◌, length};
ghost use Rattle.rules.specs.Bytes.{said};
ghost use Rattle.job.specs.Layout.{Fit};
ghost use Rattle.phases.specs.Rounds.{NonePast, Settles, Labelled};

use job::layout::Layout;
use phases::phase::Phase;
use sets::places::PlaceSet;

// Rounds of the phase, from the set on, which has no place but the job's, until one adds nothing. Each before it adds a place, so that there is an
// end; how many there are is not known before, so that this is no for.
pub fn all_rounds(plan: &mut [u8], job: &[u8], l: Layout, set: PlaceSet, phase: Phase) -> PlaceSet
    requires fit { Fit job.now l }
    requires goals_in_bounds { 4 * (l.states * l.goals) ≤ length plan.old }
    requires none_past { NonePast (said job.now) set.words }
    ensures { Settles (said job.now) phase set.words plan.old result.words plan.new }
{
    let n = l.states * l.goals;
    let used = sets::places::words_for(n);
    let mut got = set;
    let mut few = set.len_in(used);
    let mut k: usize = 0;
    loop {
        let next = crate::round::one_round(plan, job, l, got, phase, (k + 1) as u16);
        let more = next.len_in(used);
        if more == few {
            return next;
        }
        got = next;
        few = more;
        k += 1;
    }
}

// Labels every place.
pub fn label_all(plan: &mut [u8], job: &[u8], l: Layout)
    requires fit { Fit job.now l }
    requires goals_in_bounds { 4 * (l.states * l.goals) ≤ length plan.old }
    ensures { Labelled (said job.now) plan.old plan.new }
{
    let first = phases::begin::begin(plan, job, l);
    let won = all_rounds(plan, job, l, first, Phase::Winning);
    let all = all_rounds(plan, job, l, won, Phase::Pending);
}
