// Planning with an index: the job is read, every place is labelled backward, and the plan is written.
ghost use Rattle.rules.specs.Answers.{planned_fault};
ghost use Rattle.backward.specs.Call.{PlanningBy};

use rules::answer::Refusal;

// Plans the job into the buffer, with an index and counters in lent memory; or says no and leaves all of them as they were.
pub fn plan(
    job: &[u8],
    plan: &mut [u8],
    index: &mut [u16],
    counters: &mut [u16],
) -> Result<(), Refusal>
    ensures { PlanningBy job.now plan.old index.old counters.old
        (planned_fault result) plan.new index.new counters.new }
{
    let l = job::accept::read(job)?;
    let places = l.states * l.goals;
    if plan.len() < 4 * places {
        return Err(Refusal::Room);
    }
    if index.len() < l.states + l.records || counters.len() < places * (l.actions as usize) {
        return Err(Refusal::Memory);
    }
    crate::layers::label_all(plan, index, counters, job, l);
    Ok(())
}
