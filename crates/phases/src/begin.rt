// Round 0, where an engine begins: the accepted places, and an entry for every place.
ghost use Rattle.std.specs.Prelude.{◌≡◌, ◌+◌, ◌*◌, ◌<◌, ◌≤◌, length};
ghost use Rattle.job.specs.Layout.{Fit};
ghost use Rattle.phases.specs.Round.{BegunAt, BegunAll};

use game::entry::Entry;
use job::layout::Layout;
use rules::answer::Value;
use sets::places::{PlaceSet, Places};

// Round 0 at the place whose entry is i: an accepted one joins the set, and the entry is written either way.
pub fn begin_place<const N: usize>(new: &mut Places<N>, plan: &mut [u8], i: usize, accepted: bool)
    requires i_in_set { i < 64 * N }
    requires i_in_bounds { 4 * i + 4 ≤ length plan.old }
    ensures { BegunAt accepted i new.old.words plan.old new.new.words plan.new }
{
    let value = if accepted {
        new.put(i);
        Value::Winning
    } else {
        Value::Losing
    };
    rules::entry::write_entry(
        plan,
        i,
        Entry {
            value: value.number(),
            action: 255,
            number: 0,
        },
    );
}

// Round 0: the accepted places, and an entry for every place.
pub fn begin(plan: &mut [u8], job: &[u8], l: Layout) -> PlaceSet
    requires fit { Fit job.now l }
    requires goals_in_bounds { 4 * (l.states * l.goals) ≤ length plan.old }
    ensures { BegunAll job.now l plan.old result.words plan.new }
{
    let mut new = PlaceSet::empty();
    for i in 0..l.states * l.goals {
        let accepted = job::ask::is_accepted(job, l, i / l.goals, i % l.goals);
        begin_place(&mut new, plan, i, accepted);
    }
    new
}
