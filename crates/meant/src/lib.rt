// The job that was written, read again: whether its records are the moves that were said, and its labels those that were made.
#![tactic(auto)]

pub mod goal;

ghost use Rattle.std.specs.Prelude.{◌≡◌, true, ℕ, ◌+◌, ◌*◌, ◌/◌, ◌%◌, ◌<◌, ◌≤◌, get_or};
ghost use Rattle.game.specs.Below.{every_below};
ghost use Rattle.rules.specs.Job.{recorded};
ghost use Rattle.rules.specs.Bytes.{said, byte};
ghost use Rattle.job.specs.Layout.{Fit};
ghost use Rattle.lines.specs.Numbers.{has};
ghost use Rattle.meant.specs.Meant.{move_number, Meant};

use job::layout::Layout;
use lines::says::{Facts, Moves};

// Whether record k is a move that was said.
fn is_said(job: &[u8], l: Layout, moves: &Moves, k: usize) -> bool
    requires fit { Fit job.now l }
    requires k_lt_records { k < l.records }
    ensures { result ≡ has moves.now.bytes (move_number ((said job.now).move k)) }
{
    let m = job::ask::move_at(job, l, k);
    let (s, a, t) = m.figures();
    let i = (s * 16 + a) * 512 + t;
    moves.contains(i)
}

// Whether each record is a move that was said.
fn all_said(job: &[u8], l: Layout, moves: &Moves) -> bool
    requires { Fit job.now l }
    ensures { result ≡ true → (k : ℕ) → k < l.records → has moves.now.bytes (move_number ((said job.now).move k)) ≡ true }
{
    for k in 0..l.records {
        if !is_said(job, l, moves, k) {
            return false;
        }
    }
    true
}

// Whether the move with this number is recorded.
#[tactic(auto, using(crate::proofs::Meaning::found_recorded))]
fn is_recorded(job: &[u8], l: Layout, i: usize) -> bool
    requires { Fit job.now l }
    ensures { result ≡ recorded (said job.now) (i / 8192) (i / 512 % 16) (i % 512) }
{
    job::ask::find(job, l, i / 8192, i / 512 % 16, i % 512).is_some()
}

// Whether each of the eight moves that byte k of the set tells of is recorded, if it was said.
#[inline(never)]
fn byte_recorded(job: &[u8], l: Layout, moves: &Moves, k: usize) -> bool
    requires fit { Fit job.now l }
    requires k_bound { k < 524288 }
    ensures { result ≡ true → (i : ℕ) → i < 8 * k + 8 → 8 * k ≤ i → has moves.now.bytes i ≡ true
        → recorded (said job.now) (i / 8192) (i / 512 % 16) (i % 512) ≡ true }
{
    for i in 8 * k..8 * k + 8 {
        if moves.contains(i) && !is_recorded(job, l, i) {
            return false;
        }
    }
    true
}

// Whether each move that was said is recorded. Most bytes of the set are 0, and are passed over.
fn all_recorded(job: &[u8], l: Layout, moves: &Moves) -> bool
    requires { Fit job.now l }
    ensures { result ≡ true → (i : ℕ) → i < 4194304 → has moves.now.bytes i ≡ true
        → recorded (said job.now) (i / 8192) (i / 512 % 16) (i % 512) ≡ true }
{
    for k in 0..524288 {
        if moves.bytes[k] != 0 && !byte_recorded(job, l, moves, k) {
            return false;
        }
    }
    true
}

// Whether each label is the one that was made.
fn labels_same(job: &[u8], l: Layout, labels: &Facts) -> bool
    requires { Fit job.now l }
    ensures { result ≡ true → (s : ℕ) → s < l.states → byte job.now 1 s ≡ get_or labels.now.bytes s 0 }
{
    let at = l.labels_at;
    for s in 0..l.states {
        if job[at + s] != labels.bytes[s] {
            return false;
        }
    }
    true
}

// Whether the job is the one that was meant.
pub fn is_right(job: &[u8], l: Layout, labels: &Facts, moves: &Moves) -> bool
    requires { Fit job.now l }
    ensures { result ≡ true → Meant job.now labels.now.bytes moves.now.bytes }
{
    all_said(job, l, moves) && all_recorded(job, l, moves) && labels_same(job, l, labels)
}
