// Reading a job: each fault of the table from 1 to 6, 12 and 13 in its order, one pass over each body.
ghost use Rattle.std.specs.Prelude.{◌≡◌, true, ◌≤◌, length};
ghost use Rattle.rules.specs.Bytes.{said, contents, labels, within_but, whole, records_fault, goal};
ghost use Rattle.job.specs.Layout.{layout, Laid, in_ranges, fault_after};
ghost use Rattle.job.specs.Reading.{verdict_fault, reading, reading_but, reading_figures};

use crate::body::{bytes_below, join, labels_below, labels_of, number_at};
use crate::form::Form;
use crate::layout::Layout;
use rules::answer::Refusal;
use rules::place::Move;

// Whether the bodies follow one another from 16 on to the job's end, and Counts is 6 or 8 long.
fn contents_fit(job: &[u8]) -> bool
    requires { 16 ≤ length job.now }
    ensures { result ≡ contents job.now }
{
    let counts_at = number_at(job, 0);
    let counts_long = number_at(job, 2);
    let labels_at = number_at(job, 4);
    let moves_at = number_at(job, 8);
    let goal_at = number_at(job, 12);
    counts_at == 16
        && labels_at == counts_at + counts_long
        && moves_at == labels_at + number_at(job, 6)
        && goal_at == moves_at + number_at(job, 10)
        && job.len() == goal_at + number_at(job, 14)
        && (counts_long == 6 || counts_long == 8)
}

// Where the bodies lie, what the counts are, and which form it is.
fn layout_of(job: &[u8]) -> Layout
    requires in_bounds { 16 ≤ length job.now }
    requires job_value { contents job.now ≡ true }
    ensures { result ≡ layout job.now }
{
    let form = Form::of_counts(number_at(job, 2));
    let c = form.counts_at(job, 16);
    let moves_at = number_at(job, 8);
    let goal_at = number_at(job, 12);
    Layout {
        states: c.states,
        actions: c.actions,
        propositions: c.propositions,
        goals: c.goals,
        first: c.first,
        first_goal: c.first_goal,
        records: (goal_at - moves_at) / form.record_size(),
        labels_at: number_at(job, 4),
        moves_at,
        goal_at,
        form,
    }
}

// Whether each count and first number is in its range.
fn counts_fit(l: Layout) -> bool
    ensures { result ≡ in_ranges l }
{
    1 <= l.states
        && l.states <= l.form.most_states()
        && 1 <= l.actions
        && l.actions <= 16
        && l.propositions <= 6
        && 1 <= l.goals
        && l.goals <= 32
        && l.first < l.states
        && l.first_goal < l.goals
}

// Whether there is a label for each state, and each lies below 2^P.
fn labels_fit(job: &[u8], l: Layout) -> bool
    requires { Laid job.now l }
    ensures { result ≡ labels job.now }
{
    l.moves_at - l.labels_at == l.states && labels_below(job, l.labels_at, l.states, l.propositions)
}

// Whether each field of a record is in its range; a too large outcome may be forgiven.
fn fields_fit(l: Layout, m: Move, forgive: bool) -> bool
    ensures { result ≡ within_but forgive l.states l.actions m }
{
    usize::from(m.state) < l.states
        && m.action < l.actions
        && (forgive || usize::from(m.outcome) < l.states)
}

// What is wrong with record k, where last is the one before it, joined: its fields are judged, and then its order. Records are compared as
// numbers that are joined, and not field by field: one comparison of many bits for each record.
fn judge_record(l: Layout, k: usize, last: u64, m: Move, forgive: bool) -> Result<(), Refusal>
    requires { k ≤ 65535 }
    ensures { verdict_fault result ≡ fault_after forgive l k last m }
{
    if !fields_fit(l, m, forgive) {
        return Err(Refusal::Field(k as u32));
    }
    if last < join(m) {
        return Ok(());
    }
    Err(Refusal::Order(k as u32))
}

// The records are judged from the front, up to the first bad one. Before record 0 stands 0, which lies below every record that is joined.
fn judge_records(job: &[u8], l: Layout, forgive: bool) -> Result<(), Refusal>
    requires laid { Laid job.now l }
    requires records_bound { l.records ≤ 65535 }
    ensures { verdict_fault result ≡ records_fault forgive (said job.now) l.records }
{
    let mut last: u64 = 0;
    for k in 0..l.records {
        let m = l.form.nth_record(job, l.moves_at, k);
        judge_record(l, k, last, m, forgive)?;
        last = join(m);
    }
    Ok(())
}

// Whether Moves has whole records, and not too many.
fn moves_whole(job: &[u8], l: Layout) -> bool
    requires { Laid job.now l }
    ensures { result ≡ whole job.now }
{
    let size = l.goal_at - l.moves_at;
    size % l.form.record_size() == 0 && size <= l.form.most_moves()
}

// Whether Goal has its length, each next goal state is one, and each mark is 0 or 1.
fn goal_fits(job: &[u8], l: Layout) -> bool
    requires laid { Laid job.now l }
    requires l_value { in_ranges l ≡ true }
    ensures { result ≡ goal job.now }
{
    let rows = l.goals * labels_of(l.propositions);
    job.len() - l.goal_at == rows + l.goals
        && bytes_below(job, l.goal_at, rows, l.goals)
        && bytes_below(job, l.goal_at + rows, l.goals, 2)
}

// The job's layout and counts, or the first fault of its bytes; a too large outcome may be forgiven.
fn judge(job: &[u8], forgive: bool) -> Result<Layout, Refusal>
    ensures { reading_figures result ≡ reading_but forgive job.now }
{
    if job.len() < 16 {
        return Err(Refusal::Short);
    }
    if !contents_fit(job) {
        return Err(Refusal::Contents);
    }
    let l = layout_of(job);
    if !counts_fit(l) {
        return Err(Refusal::Counts);
    }
    if !labels_fit(job, l) {
        return Err(Refusal::Labels);
    }
    if !moves_whole(job, l) {
        return Err(Refusal::Moves);
    }
    judge_records(job, l, forgive)?;
    if !goal_fits(job, l) {
        return Err(Refusal::Goal);
    }
    Ok(l)
}

// The job's layout and counts, or the first fault of its bytes.
pub fn read(job: &[u8]) -> Result<Layout, Refusal>
    ensures { reading_figures result ≡ reading job.now }
{
    judge(job, false)
}

// The job's layout and counts, or the first fault of its bytes other than a too large outcome.
pub fn read_forgiving(job: &[u8]) -> Result<Layout, Refusal>
    ensures { reading_figures result ≡ reading_but true job.now }
{
    judge(job, true)
}
