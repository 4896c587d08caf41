// The second pass: the records that stay are copied, and the pairs that are removed are listed.
ghost use Rattle.std.specs.Prelude.{◌≡◌, true, cond, [], ◌+◌, ◌≤◌, ◌<◌, length};
ghost use Rattle.rules.specs.Bytes.{said};
ghost use Rattle.job.specs.Layout.{FitBut};
ghost use Rattle.salvage.specs.Mended.{stays, lists};
ghost use Rattle.salvage.specs.Salvage.{record_bytes, pair_bytes, moves_kept, removed, salvaged};
ghost use Rattle.rules.specs.Retold.{patched};
ghost use Rattle.salvage.specs.Passes.{Turned, Put, Sized, head};

use crate::pairs::{Turn, look};
use crate::put::{copy, put_entry, put_pair};
use job::ask::forgiven_move_at;
use job::layout::Layout;

// Copies record k if it stays. Returns the place after it.
fn put_record(out: &mut [u8], at: usize, job: &[u8], l: Layout, k: usize, u: Turn) -> usize
    requires fit_but { FitBut true job.now l }
    requires k_lt_records { k < l.records }
    requires turned { Turned job.now k u }
    requires k_in_bounds { at + length (cond (stays (said job.now) k) (record_bytes job.now k) []) ≤ length out.old }
    ensures { Put (stays (said job.now)) (record_bytes job.now) k out.old at out.new result }
{
    if u.bad {
        return at;
    }
    let width = l.form.record_size();
    copy(out, at, job, l.moves_at + width * k, width);
    at + width
}

// Lists the pair of record k if it is removed and this is its first record. Returns the place after it.
fn put_listed(out: &mut [u8], at: usize, job: &[u8], l: Layout, k: usize, u: Turn) -> usize
    requires fit_but { FitBut true job.now l }
    requires k_lt_records { k < l.records }
    requires turned { Turned job.now k u }
    requires k_in_bounds { at + length (cond (lists (said job.now) k) (pair_bytes job.now k) []) ≤ length out.old }
    ensures { Put (lists (said job.now)) (pair_bytes job.now) k out.old at out.new result }
{
    if !u.bad || !u.first {
        return at;
    }
    put_pair(out, at, forgiven_move_at(job, l, k));
    at + 3
}

// Copies the records that stay to where Moves begins, and lists the pairs that are removed.
fn write_records(out: &mut [u8], pairs: &mut [u8], job: &[u8], l: Layout)
    requires fit_but { FitBut true job.now l }
    requires job_in_bounds { l.moves_at + length (moves_kept job.now) ≤ length out.old }
    requires job_in_bounds_2 { length (removed job.now) ≤ length pairs.old }
    ensures out_after { out.new ≡ patched out.old l.moves_at (moves_kept job.now) }
    ensures pairs_after { pairs.new ≡ patched pairs.old 0 (removed job.now) }
{
    let mut at = l.moves_at;
    let mut next: usize = 0;
    let mut bad = false;
    for k in 0..l.records {
        let u = look(job, l, k, bad);
        at = put_record(out, at, job, l, k, u);
        next = put_listed(pairs, next, job, l, k, u);
        bad = u.bad;
    }
}

// Writes the contents anew, with Moves taking `kept` bytes, and copies Counts and Labels.
fn write_head(out: &mut [u8], job: &[u8], l: Layout, kept: usize)
    requires fit_but { FitBut true job.now l }
    requires sized { Sized job.now l kept }
    requires moves_at_in_bounds { l.moves_at ≤ length out.old }
    ensures { out.new ≡ patched out.old 0 (head job.now) }
{
    put_entry(out, 0, 16, l.labels_at - 16);
    put_entry(out, 4, l.labels_at, l.moves_at - l.labels_at);
    put_entry(out, 8, l.moves_at, kept);
    put_entry(out, 12, l.moves_at + kept, job.len() - l.goal_at);
    copy(out, 16, job, 16, l.moves_at - 16);
}

// Writes the salvaged job, whose Moves takes `kept` bytes, and the list of the removed pairs.
pub fn write_both(out: &mut [u8], pairs: &mut [u8], job: &[u8], l: Layout, kept: usize)
    requires fit_but { FitBut true job.now l }
    requires sized { Sized job.now l kept }
    requires job_in_bounds { length (salvaged job.now) ≤ length out.old }
    requires job_in_bounds_2 { length (removed job.now) ≤ length pairs.old }
    ensures out_after { out.new ≡ patched out.old 0 (salvaged job.now) }
    ensures pairs_after { pairs.new ≡ patched pairs.old 0 (removed job.now) }
{
    write_head(out, job, l, kept);
    write_records(out, pairs, job, l);
    copy(
        out,
        l.moves_at + kept,
        job,
        l.goal_at,
        job.len() - l.goal_at,
    );
}
