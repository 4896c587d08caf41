// The pairs of state and action in record order: which record is the first of its pair, and which pair is bad.
ghost use Rattle.std.specs.Prelude.{◌≡◌, true, ◌<◌};
ghost use Rattle.rules.specs.Job.{is_from};
ghost use Rattle.rules.specs.Bytes.{said};
ghost use Rattle.job.specs.Layout.{FitBut};
ghost use Rattle.salvage.specs.Mended.{spoilt, first_of_pair};
ghost use Rattle.salvage.specs.Passes.{Carried, Turned};

use job::ask::forgiven_move_at;
use job::layout::Layout;
use rules::place::Move;

// Whether two records have the same state and action.
fn same_pair(m: Move, n: Move) -> bool
    ensures { result ≡ is_from m n.state n.action }
{
    m.pair() == n.pair()
}

// Whether record k is the first with its state and action. Records ascend, so that the one before it tells.
fn is_first(job: &[u8], l: Layout, k: usize) -> bool
    requires fit_but { FitBut true job.now l }
    requires k_lt_records { k < l.records }
    ensures { result ≡ first_of_pair (said job.now) k }
{
    if k == 0 {
        return true;
    }
    let last = forgiven_move_at(job, l, k - 1);
    let m = forgiven_move_at(job, l, k);
    !same_pair(last, m)
}

// Whether the pair whose first record is `begin` has an outcome that is no state: its records lie together from there on.
fn is_bad(job: &[u8], l: Layout, begin: usize) -> bool
    requires fit_but { FitBut true job.now l }
    requires begin_lt_records { begin < l.records }
    requires begin_value { first_of_pair (said job.now) begin ≡ true }
    ensures { result ≡ spoilt (said job.now) begin }
{
    let m = forgiven_move_at(job, l, begin);
    for i in begin..l.records {
        let x = forgiven_move_at(job, l, i);
        if !same_pair(x, m) {
            return false;
        }
        if l.states <= usize::from(x.outcome) {
            return true;
        }
    }
    false
}

// What a pass finds of a record: whether it is the first of its pair, and whether the pair is bad.
#[derive(Clone, Copy, Debug, PartialEq, Eq)]
pub struct Turn {
    pub first: bool,
    pub bad: bool,
}

// What a pass finds of record k, where `bad` is what it found of the one before. So a pass reads a record a fixed number of times at most, however
// many its pair has: to tell whether it and whether the next one is the first of a pair, and once as its pair is judged; the first of a pair is then
// read twice, and once more where the pair before it ends.
pub fn look(job: &[u8], l: Layout, k: usize, bad: bool) -> Turn
    requires fit_but { FitBut true job.now l }
    requires k_lt_records { k < l.records }
    requires carried { Carried job.now k bad }
    ensures { Turned job.now k result }
{
    if is_first(job, l, k) {
        return Turn {
            first: true,
            bad: is_bad(job, l, k),
        };
    }
    Turn { first: false, bad }
}
