// What depends on the form of a job, old or tall: the sizes, the limits, and how Counts and a record are read. No other code asks the form,
// but `Layout::told_apart`, by which what is done for every record is made for each, and salvaging how many bytes a record has.
ghost use Rattle.std.specs.Prelude.{◌≡◌, ◌+◌, ◌*◌, ◌≤◌, eqb, length};
ghost use Rattle.job.specs.Forms.{in_rules, named_form};

use crate::body::{byte_at, number_at};
use rules::bytes::word_at;
use rules::place::{Counts, Move};

#[derive(Clone, Copy, Debug, PartialEq, Eq)]
pub enum Form {
    Old,
    Tall,
}

impl Form {
    // The form by how long Counts is, where it has the length of one of them.
    pub fn of_counts(size: usize) -> Form
        ensures { result ≡ named_form (eqb size 8) }
    {
        if size == 8 { Form::Tall } else { Form::Old }
    }

    // How many bytes a record has.
    pub fn record_size(self) -> usize
        ensures { result ≡ (in_rules self).record_size }
    {
        match self {
            Form::Old => 3,
            Form::Tall => 5,
        }
    }

    // How many states there may be.
    pub fn most_states(self) -> usize
        ensures { result ≡ (in_rules self).most_states }
    {
        match self {
            Form::Old => 128,
            Form::Tall => 512,
        }
    }

    // How many bytes of records there may be.
    pub fn most_moves(self) -> usize
        ensures { result ≡ (in_rules self).record_size * (in_rules self).most_records }
    {
        match self {
            Form::Old => 12288,
            Form::Tall => 40960,
        }
    }

    // What Counts says at a place of the job.
    pub fn counts_at(self, job: &[u8], at: usize) -> Counts
        requires { at + (in_rules self).counts_size ≤ length job.now }
        ensures { result ≡ (in_rules self).counts_at job.now at }
    {
        match self {
            Form::Old => Counts {
                states: byte_at(job, at),
                actions: job[at + 1],
                propositions: job[at + 2],
                goals: byte_at(job, at + 3),
                first: byte_at(job, at + 4),
                first_goal: byte_at(job, at + 5),
            },
            Form::Tall => Counts {
                states: number_at(job, at),
                actions: job[at + 2],
                propositions: job[at + 3],
                goals: byte_at(job, at + 4),
                first: number_at(job, at + 5),
                first_goal: byte_at(job, at + 7),
            },
        }
    }

    // Record k of those that begin at a place of the job.
    pub fn nth_record(self, job: &[u8], at: usize, k: usize) -> Move
        requires { at + (in_rules self).record_size * k + (in_rules self).record_size ≤ length job.now }
        ensures { result ≡ (in_rules self).record_at job.now (at + (in_rules self).record_size * k) }
    {
        let at = at + self.record_size() * k;
        match self {
            Form::Old => Move {
                state: u16::from(job[at]),
                action: job[at + 1],
                outcome: u16::from(job[at + 2]),
            },
            Form::Tall => Move {
                state: word_at(job, at),
                action: job[at + 2],
                outcome: word_at(job, at + 3),
            },
        }
    }
}
