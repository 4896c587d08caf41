// The reader of moves: it holds the lent job and a cursor, and hands out one move at a time. The work is done on the slice
// and the number; the functions over the struct are thin.
#![tactic(auto)]

ghost use Rattle.std.specs.Prelude.{◌≡◌};
ghost use Rattle.rules.specs.Bytes.{fault};
ghost use Rattle.reader.specs.Handed.{answered, handed, cursor, opened, hands, moved};

use rules::place::Move;

// What opening answers: the number that refuses the job, or 0, and with 12 and 13 the bad record. Two numbers and no Result: their ranges are promised.
#[derive(Clone, Copy, Debug, PartialEq, Eq)]
pub struct Answer {
    pub refusal: u32,
    pub record: u32,
}

#[derive(Clone, Copy, Debug, PartialEq, Eq)]
pub struct MoveReader<'a> {
    pub job: &'a [u8],
    pub answer: Answer,
    pub at: usize,
}

// Judges the job.
pub fn opening(job: &[u8]) -> Answer
    ensures { result ≡ answered (fault job.now) }
{
    match job::accept::read(job) {
        Ok(_) => Answer {
            refusal: 0,
            record: 0,
        },
        Err(why) => Answer {
            refusal: why.number(),
            record: why.record(),
        },
    }
}

// Move k of the job, for whoever counts for himself. A job that is refused has none.
pub fn nth_move(job: &[u8], k: usize) -> Option<Move>
    ensures { result ≡ handed job.now k }
{
    match job::accept::read(job) {
        Ok(l) => {
            if k < l.records {
                return Some(job::ask::move_at(job, l, k));
            }
            None
        }
        Err(_) => None,
    }
}

// The cursor after one more call: it stays where there are no more moves.
pub fn next_at(job: &[u8], at: usize) -> usize
    ensures { result ≡ cursor job.now at }
{
    match job::accept::read(job) {
        Ok(l) => {
            if at < l.records {
                return at + 1;
            }
            at
        }
        Err(_) => at,
    }
}

// Opens the reader at the first move. What refuses the job stands in it.
pub fn open_moves<'a>(job: &'a [u8]) -> MoveReader<'a>
    ensures { result ≡ opened job.entry }
{
    MoveReader {
        job,
        answer: opening(job),
        at: 0,
    }
}

// Hands out the move at the cursor, if there are more, and moves it on.
pub fn next_move<'s, 'a>(r: &'s mut MoveReader<'a>) -> Option<Move>
    ensures { (result ≡ hands r.old) × (r.new ≡ moved r.old) }
{
    let job = r.job;
    let at = r.at;
    r.at = next_at(job, at);
    nth_move(job, at)
}

// The first move, for whoever holds no reader.
pub fn first_move(job: &[u8]) -> Option<Move>
    ensures { result ≡ handed job.now 0 }
{
    let mut r = open_moves(job);
    next_move(&mut r)
}
