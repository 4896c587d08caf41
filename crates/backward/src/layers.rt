// Layers of a phase until one adds nothing, and both phases.
ghost use Rattle.backward.specs.Layers.{LayersReady, LayersDone, Ready, Planned};

use job::layout::Layout;
use phases::phase::Phase;
use sets::places::{PlaceSet, ROOM};

// Layers of the phase, from the places of the set on, which are the queue up to `some`. A layer that adds nothing is the last; no limit is
// needed. Answers where the queue then ends.
pub fn all_layers(
    new: &mut PlaceSet,
    plan: &mut [u8],
    counters: &mut [u16],
    queue: &mut [u16; ROOM],
    job: &[u8],
    l: Layout,
    index: &[u16],
    some: usize,
    phase: Phase,
) -> usize
    requires { LayersReady job.now l index.now phase some new.old.words plan.old counters.old queue.old }
    ensures { LayersDone job.now phase new.old.words plan.old counters.old
        new.new.words plan.new counters.new queue.new result }
{
    let mut known = PlaceSet::empty();
    let mut from: usize = 0;
    let mut to = some;
    let mut k: usize = 0;
    loop {
        crate::queue::learn(&mut known, queue, from, to);
        let tail = crate::layer::layer(
            new,
            plan,
            counters,
            queue,
            job,
            l,
            index,
            &known,
            from,
            to,
            phase,
            (k + 1) as u16,
        );
        if tail == to {
            return tail;
        }
        from = to;
        to = tail;
        k += 1;
    }
}

// Labels every place: the index and the counters are made, then layers of winning places, then of pending ones. The queue of the winning
// places is where the pending ones go on.
pub fn label_all(plan: &mut [u8], index: &mut [u16], counters: &mut [u16], job: &[u8], l: Layout)
    requires { Ready job.now l plan.old index.old counters.old }
    ensures { Planned job.now plan.old index.old counters.old
        plan.new index.new counters.new }
{
    crate::index::build(index, job, l);
    crate::counts::count_all(counters, job, l);
    let mut set = phases::begin::begin(plan, job, l);
    let mut queue = [0u16; ROOM];
    let some = crate::queue::gather(&mut queue, &set, l.states * l.goals);
    let won = all_layers(
        &mut set,
        plan,
        counters,
        &mut queue,
        job,
        l,
        index,
        some,
        Phase::Winning,
    );
    crate::words::fill(counters, l.states * l.goals * (l.actions as usize), 0);
    all_layers(
        &mut set,
        plan,
        counters,
        &mut queue,
        job,
        l,
        index,
        won,
        Phase::Pending,
    );
}
