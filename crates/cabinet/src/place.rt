// A place in a caller's hands: started, followed, and looked up in a plan.
ghost use Rattle.std.specs.Prelude.{◌≡◌, ◌<◌, ◌&&◌, ltb, Ok};
ghost use Rattle.rules.specs.Answers.{advised_figures};
ghost use Rattle.rules.specs.Job.{entered};
ghost use Rattle.rules.specs.Bytes.{said};
ghost use Rattle.rules.specs.Calls.{moved_by, started, followed, advised};
ghost use Rattle.job.specs.Layout.{Fit};
ghost use Rattle.cabinet.specs.Figures.{moved_figures};

use job::layout::Layout;
use rules::answer::{Advice, Refusal};

// A place as a caller holds it: two figures of any value. It is no place of the rules, whose figures have 16 bits: calls take every pair of
// figures that C hands over.
#[derive(Clone, Copy, Debug, PartialEq, Eq)]
pub struct Place {
    pub state: u32,
    pub goal: u32,
}

// A place moved, with the number of the record that was followed. Starting follows none, and has 0.
#[derive(Clone, Copy, Debug, PartialEq, Eq)]
pub struct Moved {
    pub place: Place,
    pub record: u32,
}

// The place entered with state t from goal state q, by this record.
fn enter(job: &[u8], l: Layout, q: usize, t: usize, record: u32) -> Moved
    requires fit { Fit job.now l }
    requires q_lt_goals { q < l.goals }
    requires t_lt_states { t < l.states }
    ensures { moved_figures (Ok result) ≡ moved_by «record» (entered (said job.now) q t) }
{
    let p = job::ask::place_entered(job, l, q, t);
    Moved {
        place: Place {
            state: u32::from(p.state),
            goal: u32::from(p.goal),
        },
        record,
    }
}

impl Place {
    // Wherever it stands, it moves to the starting place.
    pub fn start(self, job: &[u8]) -> Result<Moved, Refusal>
        ensures { moved_figures result ≡ started job.now }
    {
        let l = job::accept::read(job)?;
        Ok(enter(job, l, l.first_goal, l.first, 0))
    }

    // Whether it is a place of the job with this layout.
    fn is_of(self, l: Layout) -> bool
        ensures { result ≡ (ltb self.state l.states && ltb self.goal l.goals) }
    {
        (self.state as usize) < l.states && (self.goal as usize) < l.goals
    }

    // It moves by an observed action and outcome.
    pub fn follow(self, job: &[u8], action: u32, outcome: u32) -> Result<Moved, Refusal>
        ensures { moved_figures result ≡ followed job.now self.state self.goal action outcome }
    {
        let l = job::accept::read(job)?;
        let t = outcome as usize;
        if !self.is_of(l) {
            return Err(Refusal::Place);
        }
        let s = self.state as usize;
        let q = self.goal as usize;
        match job::ask::find(job, l, s, action as usize, t) {
            None => Err(Refusal::Outcome),
            Some(k) => Ok(enter(job, l, q, t, k as u32)),
        }
    }

    // What a plan says of it.
    pub fn advice(self, job: &[u8], plan: &[u8]) -> Result<Advice, Refusal>
        ensures { advised_figures result ≡ advised job.now plan.now self.state self.goal }
    {
        let l = job::accept::read(job)?;
        let places = l.states * l.goals;
        if plan.len() < 4 * places {
            return Err(Refusal::Room);
        }
        if !self.is_of(l) {
            return Err(Refusal::Place);
        }
        let s = self.state;
        let q = self.goal;
        let p = rules::place::Place {
            state: s as u16,
            goal: q as u16,
        };
        let e = rules::entry::read_entry(plan, p.entry_number(l.goals as u16));
        match rules::entry::shape_of(e, l.actions, places) {
            None => Err(Refusal::Entry),
            Some(value) => Ok(Advice {
                value,
                action: e.action,
                number: e.number,
            }),
        }
    }
}
