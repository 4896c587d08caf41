// Rounds of a phase until one adds nothing, and both phases.
ghost use Rattle.std.specs.Prelude.{◌+◌, ◌*◌, ◌≤◌, length};
ghost use Rattle.rules.specs.Bytes.{said};
ghost use Rattle.job.specs.Layout.{Fit};
ghost use Rattle.trembling.specs.Held.{SettlesLarger, Labelled};

use crate::set::LargerSet;
use job::layout::Layout;
use phases::phase::Phase;

// Rounds of the phase, from the set on, over all counts of slips at once: until one adds nothing or the set is full, so that the last round's
// number is below the count of larger places. From no place no round adds one. How many there are is not
// known before, so that this is no for.
pub fn all_rounds(
    plan: &mut [u8],
    job: &[u8],
    l: Layout,
    set: LargerSet,
    slips: usize,
    phase: Phase,
) -> LargerSet
    requires fit { Fit job.now l }
    requires slips_bound { slips ≤ 3 }
    requires goals_in_bounds { 4 * ((slips + 1) * (l.states * l.goals)) ≤ length plan.old }
    ensures { SettlesLarger (said job.now) slips phase set.words plan.old result.words plan.new }
{
    let n = (slips + 1) * (l.states * l.goals);
    let used = (n + 63) / 64;
    let mut got = set;
    let mut few = set.len_in(used);
    if few == 0 {
        return set;
    }
    let mut k: usize = 0;
    while few < n {
        let next = crate::round::one_round(plan, job, l, got, slips, phase, (k + 1) as u16);
        let more = next.len_in(used);
        if more == few {
            return next;
        }
        got = next;
        few = more;
        k += 1;
    }
    got
}

// Labels every larger place.
pub fn label_all(plan: &mut [u8], job: &[u8], l: Layout, slips: usize)
    requires fit { Fit job.now l }
    requires slips_bound { slips ≤ 3 }
    requires goals_in_bounds { 4 * ((slips + 1) * (l.states * l.goals)) ≤ length plan.old }
    ensures { Labelled (said job.now) slips plan.old plan.new }
{
    let first = crate::round::begin(plan, job, l, slips);
    let won = all_rounds(plan, job, l, first, slips, Phase::Winning);
    let all = all_rounds(plan, job, l, won, slips, Phase::Pending);
}
