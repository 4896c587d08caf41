// What a job that was read says of a state, a goal state, a place or a record. No other crate reads a byte of a job at an offset, but
// salvaging copies whole bodies and records.
ghost use Rattle.std.specs.Prelude.{◌≡◌, true, ◌<◌};
ghost use Rattle.rules.specs.Job.{place, entered, is_record, arena};
ghost use Rattle.rules.specs.Bytes.{said, before};
ghost use Rattle.job.specs.Layout.{Fit, FitBut};
ghost use Rattle.job.specs.Found.{FoundOf, triple, Parted};

use crate::body::{BUSY, byte_at, labels_of};
use crate::layout::Layout;
use rules::place::{Move, Place};

// The label of state s: of its byte the part that tells of the propositions, which is the whole but for the mark.
fn label(job: &[u8], l: Layout, s: usize) -> usize
    requires fit { Fit job.now l }
    requires s_lt_states { s < l.states }
    ensures { result ≡ (said job.now).label s }
{
    usize::from(sets::label::part_below(job[l.labels_at + s], l.propositions))
}

// The goal state after entering state t from goal state q.
pub fn next_goal(job: &[u8], l: Layout, q: usize, t: usize) -> usize
    requires fit { Fit job.now l }
    requires q_lt_goals { q < l.goals }
    requires t_lt_states { t < l.states }
    ensures { result ≡ (entered (said job.now) q t).goal }
{
    let x = label(job, l, t);
    let row = q * labels_of(l.propositions);
    byte_at(job, l.goal_at + (row + x))
}

// The place that is entered with state t from goal state q.
pub fn place_entered(job: &[u8], l: Layout, q: usize, t: usize) -> Place
    requires fit { Fit job.now l }
    requires q_lt_goals { q < l.goals }
    requires t_lt_states { t < l.states }
    ensures { result ≡ entered (said job.now) q t }
{
    let g = next_goal(job, l, q, t);
    Place {
        state: t as u16,
        goal: g as u16,
    }
}

// Whether goal state q is final.
fn is_final(job: &[u8], l: Layout, q: usize) -> bool
    requires fit { Fit job.now l }
    requires q_lt_goals { q < l.goals }
    ensures { result ≡ (said job.now).final q }
{
    let rows = l.goals * labels_of(l.propositions);
    byte_at(job, l.goal_at + (rows + q)) == 1
}

// Whether state s is busy: the mark of its label's byte.
fn is_busy(job: &[u8], l: Layout, s: usize) -> bool
    requires fit { Fit job.now l }
    requires s_lt_states { s < l.states }
    ensures { result ≡ (said job.now).busy s }
{
    sets::label::has_proposition(job[l.labels_at + s], BUSY)
}

// Whether the place of state s and goal state q is accepted. Nothing else decides it.
pub fn is_accepted(job: &[u8], l: Layout, s: usize, q: usize) -> bool
    requires fit { Fit job.now l }
    requires s_lt_states { s < l.states }
    requires q_lt_goals { q < l.goals }
    ensures { result ≡ (arena (said job.now)).accepted (place s q) }
{
    is_final(job, l, q) && !is_busy(job, l, s)
}

// Record k.
pub fn move_at(job: &[u8], l: Layout, k: usize) -> Move
    requires fit { Fit job.now l }
    requires k_lt_records { k < l.records }
    ensures { result ≡ (said job.now).move k }
{
    l.form.nth_record(job, l.moves_at, k)
}

// Record k of a job that was read with too large outcomes forgiven.
pub fn forgiven_move_at(job: &[u8], l: Layout, k: usize) -> Move
    requires fit_but { FitBut true job.now l }
    requires k_lt_records { k < l.records }
    ensures { result ≡ (said job.now).move k }
{
    l.form.nth_record(job, l.moves_at, k)
}

// How many records come before this state, action and outcome. Records ascend, so each look halves the range in doubt. They are no slice,
// since a record has three bytes or five, so that there is nothing that `partition_point` could search.
pub fn count_before(job: &[u8], l: Layout, s: usize, a: usize, t: usize) -> usize
    requires { Fit job.now l }
    ensures { Parted (said job.now) (triple s a t) result result }
{
    let mut low: usize = 0;
    let mut high = l.records;
    while low < high {
        let middle = low + (high - low) / 2;
        if move_at(job, l, middle).figures() < (s, a, t) {
            low = middle + 1;
        } else {
            high = middle;
        }
    }
    low
}

// The record with this state, action and outcome: there is at most one, and it is the first that does not come before them.
pub fn find(job: &[u8], l: Layout, s: usize, a: usize, t: usize) -> Option<usize>
    requires { Fit job.now l }
    ensures { FoundOf (said job.now) s a t result }
{
    let k = count_before(job, l, s, a, t);
    if k < l.records && move_at(job, l, k).figures() == (s, a, t) {
        return Some(k);
    }
    None
}
