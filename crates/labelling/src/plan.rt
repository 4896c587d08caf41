// Planning: the job is read, every place is labelled, and the plan is written.
ghost use Rattle.rules.specs.Calls.{Planning};
ghost use Rattle.rules.specs.Answers.{planned_fault};

use rules::answer::Refusal;

// Plans the job into the buffer, or says no and leaves it as it was.
pub fn plan(job: &[u8], plan: &mut [u8]) -> Result<(), Refusal>
    ensures { Planning job.now plan.old (planned_fault result) plan.new }
{
    let l = job::accept::read(job)?;
    if plan.len() < 4 * (l.states * l.goals) {
        return Err(Refusal::Room);
    }
    crate::rounds::label_all(plan, job, l);
    Ok(())
}
