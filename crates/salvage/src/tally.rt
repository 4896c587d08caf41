// The first pass: how many records stay, and how many pairs are removed.
ghost use Rattle.std.specs.Prelude.{true, ◌≤◌};
ghost use Rattle.job.specs.Layout.{FitBut};
ghost use Rattle.salvage.specs.Passes.{Added, Tallied};

use crate::pairs::{Turn, look};
use job::layout::Layout;

#[derive(Clone, Copy, Debug, PartialEq, Eq)]
pub struct Tally {
    pub kept: usize,
    pub listed: usize,
}

// The tally with one more record.
fn added(t: Tally, u: Turn) -> Tally
    requires kept_bound { t.kept ≤ 8192 }
    requires listed_bound { t.listed ≤ 8192 }
    ensures { Added t u result }
{
    Tally {
        kept: t.kept + usize::from(!u.bad),
        listed: t.listed + usize::from(u.bad && u.first),
    }
}

// How many records stay and how many pairs are removed.
pub fn count_all(job: &[u8], l: Layout) -> Tally
    requires { FitBut true job.now l }
    ensures { Tallied job.now l.records result }
{
    let mut t = Tally { kept: 0, listed: 0 };
    let mut bad = false;
    for k in 0..l.records {
        let u = look(job, l, k, bad);
        t = added(t, u);
        bad = u.bad;
    }
    t
}
