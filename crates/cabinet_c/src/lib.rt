// What C calls: each export is the call of `cabinet` with the same name and the same promise.
#![tactic(auto)]

ghost use Rattle.std.specs.Prelude.{◌≡◌};
ghost use Rattle.rules.specs.Calls.{Planning, started, followed, advised};
ghost use Rattle.cabinet.specs.Figures.{figures_planned, figures_moved, figures_advised};
ghost use Rattle.slips.specs.Writing.{Writing};
ghost use Rattle.checking.specs.Checking.{Checks};
ghost use Rattle.cabinet.specs.Checks.{figures_checked};
ghost use Rattle.backward.specs.Call.{PlanningBy};
ghost use Rattle.larger.specs.Plans.{Trembling};
ghost use Rattle.larger.specs.Calls.{advised_slips};
ghost use Rattle.judging.specs.Judging.{Judging};
ghost use Rattle.rules.specs.Fault.{with_record};
ghost use Rattle.salvage.specs.Salvage.{Salvaging};

use cabinet::calls::{AdvisedFigures, MovedFigures, PlannedFigures};
use cabinet::checks::CheckedFigures;
use cabinet::goals::WrittenFigures;
use cabinet::judges::JudgedFigures;
use cabinet::salvaging::SalvagedFigures;

// Plans a job into a buffer.
#[unsafe(no_mangle)]
pub extern "C" fn cabinet_plan(job: &[u8], plan: &mut [u8]) -> PlannedFigures
    ensures { Planning job.now plan.old (figures_planned result) plan.new }
{
    cabinet::calls::cabinet_plan(job, plan)
}

// Finds the starting place.
#[unsafe(no_mangle)]
pub extern "C" fn cabinet_start(job: &[u8]) -> MovedFigures
    ensures { figures_moved result ≡ started job.now }
{
    cabinet::calls::cabinet_start(job)
}

// Follows one observed move.
#[unsafe(no_mangle)]
pub extern "C" fn cabinet_follow(
    job: &[u8],
    state: u32,
    goal: u32,
    action: u32,
    outcome: u32,
) -> MovedFigures
    ensures { figures_moved result ≡ followed job.now state goal action outcome }
{
    cabinet::calls::cabinet_follow(job, state, goal, action, outcome)
}

// Looks up what a plan says of a place.
#[unsafe(no_mangle)]
pub extern "C" fn cabinet_advice(job: &[u8], plan: &[u8], state: u32, goal: u32) -> AdvisedFigures
    ensures { figures_advised result ≡ advised job.now plan.now state goal }
{
    cabinet::calls::cabinet_advice(job, plan, state, goal)
}

// Writes the Goal body of slips for so many propositions into a buffer.
#[unsafe(no_mangle)]
pub extern "C" fn cabinet_goal(clauses: &[u8], propositions: u32, goal: &mut [u8]) -> WrittenFigures
    ensures { Writing clauses.now propositions goal.old result.refusal result.length goal.new }
{
    cabinet::goals::cabinet_goal(clauses, propositions, goal)
}

// Checks a plan against a job: right is 0, and 16 comes with the lowest place whose entry is wrong.
#[unsafe(no_mangle)]
pub extern "C" fn cabinet_check(job: &[u8], plan: &[u8]) -> CheckedFigures
    ensures { Checks job.now plan.now (figures_checked result) }
{
    cabinet::checks::cabinet_check(job, plan)
}

// Plans a job into a buffer by the second engine.
#[unsafe(no_mangle)]
pub extern "C" fn cabinet_plan_indexed(
    job: &[u8],
    plan: &mut [u8],
    index: &mut [u16],
    counters: &mut [u16],
) -> PlannedFigures
    ensures { PlanningBy job.now plan.old index.old counters.old
        (figures_planned result) plan.new index.new counters.new }
{
    cabinet::indexed::cabinet_plan_indexed(job, plan, index, counters)
}

// Plans a job for up to so many slips into a buffer: a plan for each count of slips left, slips 0 first.
#[unsafe(no_mangle)]
pub extern "C" fn cabinet_plan_slips(job: &[u8], slips: u32, plan: &mut [u8]) -> PlannedFigures
    ensures { Trembling job.now slips plan.old (figures_planned result) plan.new }
{
    cabinet::arm::cabinet_plan_slips(job, slips, plan)
}

// Looks up what plans for up to so many slips say of a place with so many slips left.
#[unsafe(no_mangle)]
pub extern "C" fn cabinet_advice_slips(
    job: &[u8],
    slips: u32,
    plan: &[u8],
    state: u32,
    goal: u32,
    left: u32,
) -> AdvisedFigures
    ensures { figures_advised result ≡ advised_slips job.now slips plan.now state goal left }
{
    cabinet::arm::cabinet_advice_slips(job, slips, plan, state, goal, left)
}

// Whether a formula in bytes holds at the first label of a trace: 1 for yes, 0 for no.
#[unsafe(no_mangle)]
pub extern "C" fn cabinet_judge(formula: &[u8], trace: &[u8]) -> JudgedFigures
    ensures { Judging formula.now trace.now result.refusal result.holds }
{
    cabinet::judges::cabinet_judge(formula, trace)
}

// Salvages a job into a buffer, and lists the removed pairs in another.
#[unsafe(no_mangle)]
pub extern "C" fn cabinet_salvage(
    job: &[u8],
    salvaged: &mut [u8],
    pairs: &mut [u8],
) -> SalvagedFigures
    ensures { Salvaging job.now salvaged.old pairs.old
        (with_record result.refusal result.«record») result.job_length result.pairs_length salvaged.new pairs.new }
{
    cabinet::salvaging::cabinet_salvage(job, salvaged, pairs)
}
