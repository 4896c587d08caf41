// The counters: for each place and action, the count of outcomes not yet known to be winning.
ghost use Rattle.std.specs.Prelude.{◌≡◌, false, ◌+◌, ◌*◌, ◌≤◌, ◌<◌, length};
ghost use Rattle.rules.specs.Bytes.{said};
ghost use Rattle.sets.specs.Sets.{count};
ghost use Rattle.job.specs.Layout.{Fit};
ghost use Rattle.backward.specs.Counts.{from_at, untaken, Counts, Counted};

use job::layout::Layout;

// The word of the counter of state s, goal state q and action a.
pub fn word_of(l: Layout, s: usize, q: usize, a: usize) -> usize
    requires goals_bound { l.states * l.goals ≤ 65536 }
    requires s_lt_states { s < l.states }
    requires q_lt_goals { q < l.goals }
    requires a_lt_actions { a < l.actions }
    ensures { result ≡ (s * l.goals + q) * l.actions + a }
{
    (s * l.goals + q) * (l.actions as usize) + a
}

// Record k is counted at each place of its state.
fn add_record(counters: &mut [u16], job: &[u8], l: Layout, k: usize)
    requires fit { Fit job.now l }
    requires k_lt_records { k < l.records }
    requires counts { Counts (said job.now) (λ y. count (from_at (said job.now) y) k) counters.old }
    ensures { Counted (said job.now) (λ y. count (from_at (said job.now) y) (k + 1))
        counters.old counters.new }
{
    let m = job::ask::move_at(job, l, k);
    let goals = l.goals;
    for q in 0..goals {
        let i = word_of(l, m.state as usize, q, m.action as usize);
        counters[i] += 1;
    }
}

// Counts the outcomes of every place and action; none is taken yet.
pub fn count_all(counters: &mut [u16], job: &[u8], l: Layout)
    requires fit { Fit job.now l }
    requires actions_in_bounds { l.states * l.goals * l.actions ≤ length counters.old }
    ensures { Counted (said job.now) (untaken (said job.now) (λ p. false))
        counters.old counters.new }
{
    crate::words::fill(counters, l.states * l.goals * (l.actions as usize), 0);
    let n = l.records;
    for k in 0..n {
        add_record(counters, job, l, k);
    }
}
