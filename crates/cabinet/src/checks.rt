// The call for C that checks a plan from elsewhere.
ghost use Rattle.std.specs.Prelude.{◌≡◌};
ghost use Rattle.checking.specs.Checking.{Checks, checked_figures};
ghost use Rattle.cabinet.specs.Checks.{figures_checked};

use checking::check::CheckError;

#[repr(C)]
#[derive(Clone, Copy, Debug, PartialEq, Eq)]
pub struct CheckedFigures {
    pub refusal: u32,
    pub state: u32,
    pub goal: u32,
    pub record: u32,
}

impl From<Result<(), CheckError>> for CheckedFigures {
    ghost from_gives = { λ r f. figures_checked f ≡ checked_figures r };

    fn from(answer: Result<(), CheckError>) -> CheckedFigures {
        match answer {
            Ok(()) => CheckedFigures {
                refusal: 0,
                state: 0,
                goal: 0,
                record: 0,
            },
            Err(CheckError::Wrong { state, goal }) => CheckedFigures {
                refusal: 16,
                state,
                goal,
                record: 0,
            },
            Err(CheckError::Refused(why)) => CheckedFigures {
                refusal: why.number(),
                state: 0,
                goal: 0,
                record: why.record(),
            },
        }
    }
}

// Checks a plan against a job: right is 0, and 16 comes with the lowest place whose entry is wrong.
pub fn cabinet_check(job: &[u8], plan: &[u8]) -> CheckedFigures
    ensures { Checks job.now plan.now (figures_checked result) }
{
    checking::check::check(job, plan).into()
}
