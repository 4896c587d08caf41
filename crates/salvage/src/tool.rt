// Salvaging: the job is judged with a too large outcome forgiven, what both outputs must hold is counted, and then both are written.
ghost use Rattle.salvage.specs.Salvage.{Salvaging};
ghost use Rattle.salvage.specs.Figures.{salvaged_figures};

use crate::tally::count_all;
use crate::write::write_both;
use rules::answer::Refusal;

// The lengths of the salvaged job and of the list of pairs.
#[derive(Clone, Copy, Debug, PartialEq, Eq)]
pub struct Lengths {
    pub job: usize,
    pub pairs: usize,
}

// Salvages the job into `out` and lists the removed pairs in `pairs`, or says no and leaves both as they were.
pub fn salvage(job: &[u8], out: &mut [u8], pairs: &mut [u8]) -> Result<Lengths, Refusal>
    ensures { Salvaging job.now out.old pairs.old (salvaged_figures result).fault
        (salvaged_figures result).job_length (salvaged_figures result).pairs_length out.new pairs.new }
{
    let l = job::accept::read_forgiving(job)?;
    let t = count_all(job, l);
    let kept = l.form.record_size() * t.kept;
    let listed = 3 * t.listed;
    let long = l.moves_at + kept + (job.len() - l.goal_at);
    if out.len() < long || pairs.len() < listed {
        return Err(Refusal::Room);
    }
    write_both(out, pairs, job, l, kept);
    Ok(Lengths {
        job: long,
        pairs: listed,
    })
}
