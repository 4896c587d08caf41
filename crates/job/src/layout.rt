// Where a job's bodies lie, what its counts are and which form it has; and what is done for each form by itself.
ghost use Rattle.std.specs.Prelude.{◌⊎◌};

use crate::form::Form;

#[derive(Clone, Copy, Debug, PartialEq, Eq)]
pub struct Layout {
    pub states: usize,
    pub actions: u8,
    pub propositions: u8,
    pub goals: usize,
    pub first: usize,
    pub first_goal: usize,
    pub records: usize,
    pub labels_at: usize,
    pub moves_at: usize,
    pub goal_at: usize,
    pub form: Form,
}

impl Layout {
    // What one of the two answers of this layout. The form decides which is called, so that each is made for one form alone, and what it does for
    // every record asks the form no more. Which it is, is not promised: both have to be right of a layout of either form.
    #[inline(always)]
    pub fn told_apart<R, F: FnOnce(Layout) -> R, G: FnOnce(Layout) -> R>(
        self,
        one: F,
        other: G,
    ) -> R
        requires one { F.pre one self }
        requires other { G.pre other self }
        ensures { F.post one self result ⊎ G.post other self result }
    {
        match self.form {
            Form::Old => one(Layout {
                form: Form::Old,
                ..self
            }),
            Form::Tall => other(Layout {
                form: Form::Tall,
                ..self
            }),
        }
    }
}
