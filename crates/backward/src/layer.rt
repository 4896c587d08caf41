// A layer: every place that is known and not taken yet is taken, and the places that may lead to it join.
ghost use Rattle.backward.specs.Layer.{LayerReady, Layered};

use job::layout::Layout;
use phases::phase::Phase;
use sets::places::{PlaceSet, ROOM};

// One layer: the places of the queue from `from` up to `to`, where the queue ends at first, are taken. Answers where it then ends.
pub fn layer(
    new: &mut PlaceSet,
    plan: &mut [u8],
    counters: &mut [u16],
    queue: &mut [u16; ROOM],
    job: &[u8],
    l: Layout,
    index: &[u16],
    known: &PlaceSet,
    from: usize,
    to: usize,
    phase: Phase,
    number: u16,
) -> usize
    requires { LayerReady job.now l index.now phase from to known.now.words new.old.words plan.old counters.old queue.old }
    ensures { Layered job.now l phase number to
        new.old.words plan.old counters.old queue.old
        new.new.words plan.new counters.new queue.new result }
{
    let mut tail = to;
    for head in from..to {
        tail = crate::step::take(
            new, plan, counters, queue, job, l, index, known, head, tail, phase, number,
        );
    }
    tail
}
