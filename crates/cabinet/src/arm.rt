// The calls for C for slips of the arm: planning for every place with every count of slips left, and advice on such plans.
ghost use Rattle.std.specs.Prelude.{◌≡◌};
ghost use Rattle.larger.specs.Plans.{Trembling};
ghost use Rattle.larger.specs.Calls.{advised_slips};
ghost use Rattle.cabinet.specs.Figures.{figures_planned, figures_advised};

use crate::calls::{AdvisedFigures, PlannedFigures};

// Plans a job for up to so many slips into a buffer: a plan for each count of slips left, slips 0 first.
pub fn cabinet_plan_slips(job: &[u8], slips: u32, plan: &mut [u8]) -> PlannedFigures
    ensures { Trembling job.now slips plan.old (figures_planned result) plan.new }
{
    trembling::plan::plan_slips(job, slips, plan).into()
}

// Looks up what plans for up to so many slips say of a place with so many slips left.
pub fn cabinet_advice_slips(
    job: &[u8],
    slips: u32,
    plan: &[u8],
    state: u32,
    goal: u32,
    left: u32,
) -> AdvisedFigures
    ensures { figures_advised result ≡ advised_slips job.now slips plan.now state goal left }
{
    trembling::advice::advice_slips(job, slips, plan, state, goal, left).into()
}
