// Where the records of a state lie in the move table, which is sorted by states.
ghost use Rattle.std.specs.Prelude.{◌+◌, ◌≤◌};
ghost use Rattle.rules.specs.Bytes.{said};
ghost use Rattle.job.specs.Layout.{Fit};
ghost use Rattle.labelling.specs.Scan.{From};

use job::layout::Layout;

// Where the records of state s end, which begin at start.
pub fn range_end(job: &[u8], l: Layout, s: usize, start: usize) -> usize
    requires fit { Fit job.now l }
    requires from { From (said job.now) s start }
    ensures { (start ≤ result) × From (said job.now) (s + 1) result }
{
    for k in start..l.records {
        let m = job::ask::move_at(job, l, k);
        if usize::from(m.state) != s {
            return k;
        }
    }
    l.records
}
