// The call for C that judges a recorded run.
ghost use Rattle.std.specs.Prelude.{◌≡◌};
ghost use Rattle.judging.specs.Judging.{Judging, judged_refusal, judged_holds};

use judging::run::JudgeError;

#[repr(C)]
#[derive(Clone, Copy, Debug, PartialEq, Eq)]
pub struct JudgedFigures {
    pub refusal: u32,
    pub holds: u32,
}

impl From<Result<bool, JudgeError>> for JudgedFigures {
    ghost from_gives = { λ r f. (f.refusal ≡ judged_refusal r) × (f.holds ≡ judged_holds r) };

    fn from(answer: Result<bool, JudgeError>) -> JudgedFigures {
        match answer {
            Ok(holds) => JudgedFigures {
                refusal: 0,
                holds: u32::from(holds),
            },
            Err(why) => JudgedFigures {
                refusal: why.number(),
                holds: 0,
            },
        }
    }
}

// Whether a formula in bytes holds at the first label of a trace: 1 for yes, 0 for no.
pub fn cabinet_judge(formula: &[u8], trace: &[u8]) -> JudgedFigures
    ensures { Judging formula.now trace.now result.refusal result.holds }
{
    judging::run::judge_run(formula, trace).into()
}
