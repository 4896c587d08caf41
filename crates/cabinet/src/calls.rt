// The calls for C, on job bytes, plan bytes and place numbers. Each answers one struct of figures: the refusal first, 0 on success,
// and on a refusal every other figure 0, save that 12 and 13 name the bad record. Where following succeeds, the record is the one followed.
ghost use Rattle.std.specs.Prelude.{◌≡◌};
ghost use Rattle.rules.specs.Calls.{Planning, started, followed, advised};
ghost use Rattle.rules.specs.Answers.{planned_fault, advised_figures};
ghost use Rattle.cabinet.specs.Figures.{figures_planned, moved_figures, figures_moved, figures_advised};

use crate::place::{Moved, Place};
use rules::answer::{Advice, Refusal};

#[repr(C)]
#[derive(Clone, Copy, Debug, PartialEq, Eq)]
pub struct PlannedFigures {
    pub refusal: u32,
    pub record: u32,
}

#[repr(C)]
#[derive(Clone, Copy, Debug, PartialEq, Eq)]
pub struct MovedFigures {
    pub refusal: u32,
    pub state: u32,
    pub goal: u32,
    pub record: u32,
}

#[repr(C)]
#[derive(Clone, Copy, Debug, PartialEq, Eq)]
pub struct AdvisedFigures {
    pub refusal: u32,
    pub value: u32,
    pub action: u32,
    pub number: u32,
    pub record: u32,
}

impl From<Result<(), Refusal>> for PlannedFigures {
    ghost from_gives = { λ r f. figures_planned f ≡ planned_fault r };

    fn from(answer: Result<(), Refusal>) -> PlannedFigures {
        match answer {
            Ok(()) => PlannedFigures {
                refusal: 0,
                record: 0,
            },
            Err(why) => PlannedFigures {
                refusal: why.number(),
                record: why.record(),
            },
        }
    }
}

impl From<Result<Moved, Refusal>> for MovedFigures {
    ghost from_gives = { λ r f. figures_moved f ≡ moved_figures r };

    fn from(answer: Result<Moved, Refusal>) -> MovedFigures {
        match answer {
            Ok(moved) => MovedFigures {
                refusal: 0,
                state: moved.place.state,
                goal: moved.place.goal,
                record: moved.record,
            },
            Err(why) => MovedFigures {
                refusal: why.number(),
                state: 0,
                goal: 0,
                record: why.record(),
            },
        }
    }
}

impl From<Result<Advice, Refusal>> for AdvisedFigures {
    ghost from_gives = { λ r f. figures_advised f ≡ advised_figures r };

    fn from(answer: Result<Advice, Refusal>) -> AdvisedFigures {
        match answer {
            Ok(advice) => AdvisedFigures {
                refusal: 0,
                value: u32::from(advice.value.number()),
                action: u32::from(advice.action),
                number: u32::from(advice.number),
                record: 0,
            },
            Err(why) => AdvisedFigures {
                refusal: why.number(),
                value: 0,
                action: 0,
                number: 0,
                record: why.record(),
            },
        }
    }
}

// Plans a job into a buffer.
pub fn cabinet_plan(job: &[u8], plan: &mut [u8]) -> PlannedFigures
    ensures { Planning job.now plan.old (figures_planned result) plan.new }
{
    labelling::plan::plan(job, plan).into()
}

// Finds the starting place.
pub fn cabinet_start(job: &[u8]) -> MovedFigures
    ensures { figures_moved result ≡ started job.now }
{
    Place { state: 0, goal: 0 }.start(job).into()
}

// Follows one observed move.
pub fn cabinet_follow(job: &[u8], state: u32, goal: u32, action: u32, outcome: u32) -> MovedFigures
    ensures { figures_moved result ≡ followed job.now state goal action outcome }
{
    Place { state, goal }.follow(job, action, outcome).into()
}

// Looks up what a plan says of a place.
pub fn cabinet_advice(job: &[u8], plan: &[u8], state: u32, goal: u32) -> AdvisedFigures
    ensures { figures_advised result ≡ advised job.now plan.now state goal }
{
    Place { state, goal }.advice(job, plan).into()
}
