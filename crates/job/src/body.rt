// The bytes of a body: a number of two bytes, a record that is joined, and bytes that all lie below a limit.
ghost use Rattle.std.specs.Prelude.{◌≡◌, ◌+◌, ◌*◌, ◌%◌, ◌^◌, ◌≤◌, ◌<◌, ltb, length, get_or};
ghost use Rattle.game.specs.Below.{every_below};
ghost use Rattle.rules.specs.Form.{word};
ghost use Rattle.job.specs.Joined.{joined};

use rules::bytes::word_at;
use rules::place::Move;

// The bit of a label's byte that marks its state as busy. The label is below it.
pub const BUSY: u8 = 7;

// The byte at a place of the job.
pub fn byte_at(job: &[u8], at: usize) -> usize
    requires { at < length job.now }
    ensures { result ≡ get_or job.now at 0 }
{
    usize::from(job[at])
}

// The number of two bytes at a place of the job, as wide as a count.
pub fn number_at(job: &[u8], at: usize) -> usize
    requires { at + 2 ≤ length job.now }
    ensures { result ≡ word job.now at }
{
    usize::from(word_at(job, at))
}

// A record's three fields joined into one number, above 0.
pub fn join(m: Move) -> u64
    ensures { result ≡ joined m }
{
    (u64::from(m.state) * 256 + u64::from(m.action)) * 65536 + u64::from(m.outcome) + 1
}

// How many labels there are of so many propositions.
pub fn labels_of(propositions: u8) -> usize
    requires { propositions ≤ 6 }
    ensures { result ≡ 2 ^ propositions }
{
    1 << propositions
}

// Whether the n bytes from a place on all lie below the limit.
pub fn bytes_below(job: &[u8], at: usize, n: usize, limit: usize) -> bool
    requires { at + n ≤ length job.now }
    ensures { result ≡ every_below n (λ i. ltb (get_or job.now (at + i) 0) limit) }
{
    for i in 0..n {
        if limit <= byte_at(job, at + i) {
            return false;
        }
    }
    true
}

// Whether a label lies below 2^p without its mark.
fn label_fits(byte: u8, p: u8) -> bool
    ensures { result ≡ ltb (byte % 128) (2 ^ p) }
{
    let label = sets::label::part_below(byte, BUSY);
    sets::label::lies_below(label, p)
}

// Whether the n labels from a place on all lie below 2^p, each judged bit by bit without its mark.
pub fn labels_below(job: &[u8], at: usize, n: usize, p: u8) -> bool
    requires { at + n ≤ length job.now }
    ensures { result ≡ every_below n (λ i. ltb (get_or job.now (at + i) 0 % 128) (2 ^ p)) }
{
    for i in 0..n {
        if !label_fits(job[at + i], p) {
            return false;
        }
    }
    true
}
