// The call for C that plans with an index and counters, in two more stores that are lent.
ghost use Rattle.backward.specs.Call.{PlanningBy};
ghost use Rattle.cabinet.specs.Figures.{figures_planned};

use crate::calls::PlannedFigures;

// Plans a job into a buffer by the second engine.
pub fn cabinet_plan_indexed(
    job: &[u8],
    plan: &mut [u8],
    index: &mut [u16],
    counters: &mut [u16],
) -> PlannedFigures
    ensures { PlanningBy job.now plan.old index.old counters.old
        (figures_planned result) plan.new index.new counters.new }
{
    backward::plan::plan(job, plan, index, counters).into()
}
