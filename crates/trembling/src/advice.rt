// What plans for slips of the arm say of a place with so many slips left.
ghost use Rattle.std.specs.Prelude.{◌≡◌};
ghost use Rattle.rules.specs.Answers.{advised_figures};
ghost use Rattle.larger.specs.Calls.{advised_slips};

use rules::answer::{Advice, Refusal};

// What the plans for up to so many slips say of the place of a state and a goal state with so many slips left.
pub fn advice_slips(
    job: &[u8],
    slips: u32,
    plan: &[u8],
    state: u32,
    goal: u32,
    left: u32,
) -> Result<Advice, Refusal>
    ensures { advised_figures result ≡ advised_slips job.now slips plan.now state goal left }
{
    let l = job::accept::read(job)?;
    if 3 < slips {
        return Err(Refusal::Slips);
    }
    let s = state as usize;
    let q = goal as usize;
    let k = left as usize;
    let most = slips as usize;
    let many = l.states * l.goals;
    let places = (most + 1) * many;
    if plan.len() < 4 * places {
        return Err(Refusal::Room);
    }
    if l.states <= s || l.goals <= q || most < k {
        return Err(Refusal::Place);
    }
    let e = rules::entry::read_entry(plan, k * many + (s * l.goals + q));
    match rules::entry::shape_of(e, l.actions, places) {
        Some(value) => Ok(Advice {
            value,
            action: e.action,
            number: e.number,
        }),
        None => Err(Refusal::Entry),
    }
}
