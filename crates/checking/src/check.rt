// The check of a job and a plan.
ghost use Rattle.std.specs.Prelude.{◌≡◌, ◌*◌, ◌<◌, ◌≤◌, length};
ghost use Rattle.job.specs.Layout.{Fit};
ghost use Rattle.sets.specs.Sets.{set_room};
ghost use Rattle.checking.specs.Checking.{checked_figures, Checks};
ghost use Rattle.checking.specs.Fits.{from_first};
ghost use Rattle.checking.specs.declared.check.CheckError.{CheckError};

use job::layout::Layout;
use rules::answer::Refusal;

// The longest plan: four bytes for each place that a set has room for.
pub const PLAN_ROOM: usize = 4 * sets::places::ROOM;

// A plan that is small.
const SMALL_ROOM: usize = 1024;

// Why a plan is not right: the job or the plan is refused, or the lowest place whose entry is wrong.
#[derive(Clone, Copy, Debug, PartialEq, Eq)]
pub enum CheckError {
    Refused(Refusal),
    Wrong { state: u32, goal: u32 },
}

impl From<Refusal> for CheckError {
    ghost from_gives = { λ why e. e ≡ CheckError.Refused why };

    fn from(why: Refusal) -> CheckError {
        CheckError::Refused(why)
    }
}

// The answer, from the number x of the first wrong entry, or n where there is none.
fn answer(x: usize, n: usize, goals: usize) -> Result<(), CheckError>
    requires goals_nonzero { 0 < goals }
    requires n_le_set_room { n ≤ set_room }
    ensures { checked_figures result ≡ from_first x n goals }
{
    if x < n {
        return Err(CheckError::Wrong {
            state: (x / goals) as u32,
            goal: (x % goals) as u32,
        });
    }
    Ok(())
}

// Checks a plan of a job that was read: the right plan is made in the array that is lent, and the entries are compared in order.
fn check_by(own: &mut [u8], job: &[u8], l: Layout, plan: &[u8]) -> Result<(), CheckError>
    requires fit { Fit job.now l }
    requires goals_in_bounds { 4 * (l.states * l.goals) ≤ length own.old }
    requires goals_in_bounds_2 { 4 * (l.states * l.goals) ≤ length plan.now }
    ensures { Checks job.now plan.now (checked_figures result) }
{
    labelling::plan::plan(job, own)?;
    let x = crate::entries::fits_all(job, l, plan, own);
    answer(x, l.states * l.goals, l.goals)
}

// Whether each entry of the plan may stand where it stands. Neither job nor plan is written. The right plan of a plan that is small is made in
// a small array, since clearing a large one takes longer than that.
pub fn check(job: &[u8], plan: &[u8]) -> Result<(), CheckError>
    ensures { Checks job.now plan.now (checked_figures result) }
{
    let l = job::accept::read(job)?;
    let room = 4 * (l.states * l.goals);
    if plan.len() < room {
        return Err(CheckError::Refused(Refusal::Room));
    }
    if room <= SMALL_ROOM {
        let mut own = [0u8; SMALL_ROOM];
        return check_by(&mut own, job, l, plan);
    }
    let mut own = [0u8; PLAN_ROOM];
    check_by(&mut own, job, l, plan)
}
