// Planning with slips of the arm: the job is read, every larger place is labelled, and the plans are written.
ghost use Rattle.rules.specs.Answers.{planned_fault};
ghost use Rattle.larger.specs.Plans.{Trembling};

use rules::answer::Refusal;

// Plans the job for up to so many slips into the buffer, or says no and leaves it as it was.
pub fn plan_slips(job: &[u8], slips: u32, plan: &mut [u8]) -> Result<(), Refusal>
    ensures { Trembling job.now slips plan.old (planned_fault result) plan.new }
{
    let l = job::accept::read(job)?;
    if 3 < slips {
        return Err(Refusal::Slips);
    }
    let most = slips as usize;
    if plan.len() < 4 * ((most + 1) * (l.states * l.goals)) {
        return Err(Refusal::Room);
    }
    crate::rounds::label_all(plan, job, l, most);
    Ok(())
}
