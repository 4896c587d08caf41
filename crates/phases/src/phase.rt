// The two phases of an engine.
ghost use Rattle.std.specs.Prelude.{◌≡◌};
ghost use Rattle.rules.specs.Answers.{value_number};
ghost use Rattle.phases.specs.Wanted.{phase_value};

use rules::answer::Value;

// What a phase labels.
#[derive(Clone, Copy, Debug, PartialEq, Eq)]
pub enum Phase {
    Winning,
    Pending,
}

// The value that a phase's places have, in a plan.
impl From<Phase> for Value {
    ghost from_gives = { λ phase v. value_number v ≡ phase_value phase };

    fn from(phase: Phase) -> Value {
        match phase {
            Phase::Winning => Value::Winning,
            Phase::Pending => Value::Pending,
        }
    }
}
