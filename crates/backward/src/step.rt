// The step: one place is taken, the counters of the places and actions that may lead to it fall, and the places with a counter that is
// then 0 join. Each record that leads to the place is looked at once for each goal state from which the place is entered.
ghost use Rattle.std.specs.Prelude.{◌<◌, length};
ghost use Rattle.rules.specs.Answers.{value_number};
ghost use Rattle.rules.specs.Bytes.{said};
ghost use Rattle.sets.specs.Sets.{member};
ghost use Rattle.backward.specs.Step.{Fell, WalkReady, Walked, Taking, Taken};

use job::layout::Layout;
use phases::phase::Phase;
use rules::answer::Value;
use sets::places::{PlaceSet, ROOM};

// The counter at word i falls by one, unless it is 0 already; tells whether it is 0 then. Where pending places are looked for, all are 0.
fn lower(counters: &mut [u16], i: usize) -> bool
    requires { i < length counters.old }
    ensures { Fell i counters.old result counters.new }
{
    let c = counters[i];
    if 1 < c {
        counters[i] = c - 1;
        return false;
    }
    counters[i] = 0;
    true
}

// The records that lead to state t, at goal state q: the counter of each falls, and where it is then 0 the action is found for its place.
fn walk_from(
    new: &mut PlaceSet,
    plan: &mut [u8],
    counters: &mut [u16],
    queue: &mut [u16; ROOM],
    job: &[u8],
    l: Layout,
    index: &[u16],
    known: &PlaceSet,
    t: usize,
    q: usize,
    tail: usize,
    value: Value,
    number: u16,
) -> usize
    requires walk_ready { WalkReady job.now l index.now tail new.old.words plan.old counters.old queue.old }
    requires t_lt_states { t < l.states }
    requires q_lt_goals { q < l.goals }
    ensures { Walked (said job.now) t q (said job.now).records (value_number value) number (member known.now.words)
        new.old.words plan.old counters.old queue.old tail
        new.new.words plan.new counters.new queue.new result }
{
    let n = l.records;
    let states = l.states;
    let mut end = tail;
    let mut k = index[t] as usize;
    // From link to link, and no range.
    while k < n {
        let m = job::ask::move_at(job, l, k);
        k = index[states + k] as usize;
        let i = crate::counts::word_of(l, m.state as usize, q, m.action as usize);
        if lower(counters, i) {
            end = crate::note::propose(
                new,
                plan,
                queue,
                known,
                end,
                (m.state as usize) * l.goals + q,
                m.action,
                value,
                number,
            );
        }
    }
    end
}

// Takes the place at `head` of the queue, which ends at `tail`; answers where it then ends.
pub fn take(
    new: &mut PlaceSet,
    plan: &mut [u8],
    counters: &mut [u16],
    queue: &mut [u16; ROOM],
    job: &[u8],
    l: Layout,
    index: &[u16],
    known: &PlaceSet,
    head: usize,
    tail: usize,
    phase: Phase,
    number: u16,
) -> usize
    requires { Taking job.now l index.now phase head tail new.old.words plan.old counters.old queue.old }
    ensures { Taken (said job.now) phase number head (member known.now.words)
        new.old.words plan.old counters.old queue.old tail
        new.new.words plan.new counters.new queue.new result }
{
    let value = Value::from(phase);
    let goals = l.goals;
    let x = queue[head] as usize;
    let t = x / goals;
    let g = x % goals;
    let mut end = tail;
    for q in 0..goals {
        if job::ask::next_goal(job, l, q, t) == g {
            end = walk_from(
                new, plan, counters, queue, job, l, index, known, t, q, end, value, number,
            );
        }
    }
    end
}
