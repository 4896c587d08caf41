// The records of one state, looked through once for one larger place: the tally with the slips that are left, and the one with one fewer.
ghost use Rattle.std.specs.Prelude.{◌≡◌, false, ◌&&◌, ◌||◌, ℕ, ◌+◌, ◌*◌, ◌<◌, ◌≤◌};
ghost use Rattle.sets.specs.Sets.{bit};
ghost use Rattle.rules.specs.Bytes.{said};
ghost use Rattle.rules.specs.Job.{place};
ghost use Rattle.job.specs.Layout.{Fit};
ghost use Rattle.labelling.specs.Scan.{Range, LowestPassing};
ghost use Rattle.trembling.specs.Sets.{most_larger};
ghost use Rattle.trembling.specs.Scan.{ScannedBoth, other, slipped_for};

use crate::set::LargerSet;
use job::layout::Layout;
use labelling::scan::Tally;
use phases::phase::Phase;
use sets::actions::ActionSet;

// Two tallies of a place: with the slips that are left, and with one fewer.
#[derive(Clone, Copy, Debug, PartialEq, Eq)]
pub struct Tallies {
    pub own: Tally,
    pub less: Tally,
}

// The tally of no record.
fn no_tally() -> Tally
    ensures { ((a : ℕ) → bit result.opens.bits a ≡ false) × ((a : ℕ) → bit result.held.bits a ≡ false)
        × ((a : ℕ) → bit result.spoilt.bits a ≡ false) }
{
    let none = ActionSet::none();
    Tally {
        opens: none,
        held: none,
        spoilt: none,
    }
}

// Both tallies of the place of state s and goal state q, whose records are those from start up to end: own and less are where the entries
// of the two counts of slips begin. It is put into both of its calls, so that where own and less are the same one tally is not made in vain.
#[inline(always)]
pub fn scan(
    job: &[u8],
    l: Layout,
    places: &LargerSet,
    s: usize,
    q: usize,
    start: usize,
    end: usize,
    own: usize,
    less: usize,
) -> Tallies
    requires fit { Fit job.now l }
    requires q_lt_goals { q < l.goals }
    requires range { Range (said job.now) s start end }
    requires goals_bound { own + l.states * l.goals ≤ most_larger }
    requires goals_bound_2 { less + l.states * l.goals ≤ most_larger }
    ensures { ScannedBoth (said job.now) l.goals places.now.words own less (place s q) result }
{
    let none = no_tally();
    let mut x = Tallies {
        own: none,
        less: none,
    };
    for k in start..end {
        let m = job::ask::move_at(job, l, k);
        let i = labelling::scan::number_entered(job, l, q, usize::from(m.outcome));
        let here = places.has(own + i);
        let below = places.has(less + i);
        x = Tallies {
            own: labelling::scan::add_record(x.own, m.action, here),
            less: labelling::scan::add_record(x.less, m.action, below),
        };
    }
    x
}

// The actions of either set, and those of both.
fn either(x: ActionSet, y: ActionSet) -> ActionSet
    ensures { (a : ℕ) → bit result.bits a ≡ (bit x.bits a || bit y.bits a) }
{
    ActionSet {
        bits: x.bits | y.bits,
    }
}

fn both(x: ActionSet, y: ActionSet) -> ActionSet
    ensures { (a : ℕ) → bit result.bits a ≡ (bit x.bits a && bit y.bits a) }
{
    ActionSet {
        bits: x.bits & y.bits,
    }
}

// The actions beside which the set has another.
fn others(x: ActionSet) -> ActionSet
    ensures { (a : ℕ) → bit result.bits a ≡ other x.bits a }
{
    match x.lowest() {
        None => ActionSet::none(),
        Some(d) => {
            let one = ActionSet::none().with(d);
            let all = ActionSet { bits: 65535 };
            match x.without(one).lowest() {
                None => all.without(one),
                Some(_) => all,
            }
        }
    }
}

// The lowest action that the phase looks for, with slips left.
pub fn choose_slip(x: Tallies, phase: Phase) -> Option<u8>
    ensures { LowestPassing (slipped_for phase x) result }
{
    match phase {
        Phase::Winning => {
            let slips = others(x.less.spoilt);
            x.own.opens.without(x.own.spoilt).without(slips).lowest()
        }
        Phase::Pending => {
            let slips = others(x.less.held);
            let helped = both(x.own.opens, slips);
            either(x.own.held, helped).lowest()
        }
    }
}
