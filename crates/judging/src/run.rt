// Judging a recorded run: the refusals in their order, and then the judge at the first label.
ghost use Rattle.std.specs.Prelude.{◌≡◌, ltb, length, get_or};
ghost use Rattle.game.specs.Below.{every_below};
ghost use Rattle.judging.specs.Judging.{error_number, judged_refusal, judged_holds, Judging};
ghost use Rattle.judging.specs.Reading.{ReadWhole};

// What is refused: the trace, the formula, its depth, or a label.
#[derive(Clone, Copy, Debug, PartialEq, Eq)]
pub enum JudgeError {
    Trace,
    Formula,
    Depth,
    Letter,
}

impl JudgeError {
    pub fn number(self) -> u32
        ensures { result ≡ error_number self }
    {
        match self {
            JudgeError::Trace => 19,
            JudgeError::Formula => 20,
            JudgeError::Depth => 21,
            JudgeError::Letter => 22,
        }
    }
}

// Whether every label lies below 64.
fn labels_fit(t: &[u8]) -> bool
    ensures { result ≡ every_below (length t.now) (λ i. ltb (get_or t.now i 0) 64) }
{
    for &label in t {
        if 64 <= label {
            return false;
        }
    }
    true
}

// Of a formula that was read whole, and is so deep.
fn judge_read(f: &[u8], depth: usize, t: &[u8]) -> Result<bool, JudgeError>
    requires { ReadWhole f.now depth t.now }
    ensures { Judging f.now t.now (judged_refusal result) (judged_holds result) }
{
    if 3 < depth {
        return Err(JudgeError::Depth);
    }
    if !labels_fit(t) {
        return Err(JudgeError::Letter);
    }
    Ok(crate::walk::judge(f, 0, t, 0).holds)
}

// Whether the formula held on a recorded run, at its first label.
pub fn judge_run(f: &[u8], t: &[u8]) -> Result<bool, JudgeError>
    ensures { Judging f.now t.now (judged_refusal result) (judged_holds result) }
{
    if t.is_empty() || 64 < t.len() {
        return Err(JudgeError::Trace);
    }
    if 64 < f.len() {
        return Err(JudgeError::Formula);
    }
    let Some(read) = crate::read::read_formula(f, 0) else {
        return Err(JudgeError::Formula);
    };
    if read.end != f.len() {
        return Err(JudgeError::Formula);
    }
    judge_read(f, read.depth, t)
}
