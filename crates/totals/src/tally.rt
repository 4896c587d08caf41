// The totals of jobs, and the step that adds one.
ghost use Rattle.std.specs.Prelude.{◌≡◌};
ghost use Rattle.totals.specs.Totals.{no_totals, added, larger, larger_number};
ghost use Rattle.totals.specs.Reported.{Gathered};

use crate::class::Class;

// The largest winning starting number and the first job that has it, counted from 0 over all jobs.
#[derive(Clone, Copy, Debug, PartialEq, Eq)]
pub struct Largest {
    pub number: u16,
    pub job: u32,
}

// How many jobs there are; how many in each class, in the order of the report's lines; the sums; the largest, or that none wins.
#[derive(Clone, Copy, Debug, PartialEq, Eq)]
pub struct Totals {
    pub jobs: u32,
    pub counts: [u32; 11],
    pub winning_sum: u32,
    pub pending_sum: u32,
    pub largest: Option<Largest>,
}

// The totals of no job.
pub fn none() -> Totals
    ensures { result ≡ no_totals }
{
    Totals {
        jobs: 0,
        counts: [0; 11],
        winning_sum: 0,
        pending_sum: 0,
        largest: None,
    }
}

// The larger of the largest so far and the number of a winning job; of two that are the same, the first.
fn larger_number(so_far: Option<Largest>, job: u32, number: u16) -> Option<Largest>
    ensures { result ≡ larger_number so_far job number }
{
    match so_far {
        Some(largest) if number <= largest.number => so_far,
        _ => Some(Largest { number, job }),
    }
}

fn larger_of(so_far: Option<Largest>, job: u32, c: Class) -> Option<Largest>
    ensures { result ≡ larger so_far job c }
{
    match c {
        Class::Winning(number) => larger_number(so_far, job, number),
        _ => so_far,
    }
}

// The totals with one job more, of fewer than 64 jobs so far.
pub fn add(t: Totals, c: Class) -> Totals
    requires { Gathered t 63 }
    ensures { result ≡ added t c }
{
    let line = c.line();
    let mut counts = t.counts;
    counts[line] += 1;
    Totals {
        jobs: t.jobs + 1,
        counts,
        winning_sum: t.winning_sum + c.winning_number(),
        pending_sum: t.pending_sum + c.pending_number(),
        largest: larger_of(t.largest, t.jobs, c),
    }
}
