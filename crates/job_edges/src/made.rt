// The job that a line's words make, word by word.
ghost use Rattle.std.specs.Prelude.{ℕ, ◌≡◌, ◌≤◌, length, IfSome};

use crate::said::Said;

// Puts a word's bytes. Answers the job's length with them, or none where a word is at fault or there is no room for it.
fn put_word(job: &mut [u8], s: Said) -> Option<usize>
    requires { IfSome s.length (λ n. n ≤ length job.old) }
    ensures { IfSome result (λ n. n ≤ length job.new) }
{
    let length = s.length?;
    let at = usize::from(s.before);
    let end = at + usize::from(s.count()?);
    if end > job.len() {
        return None;
    }
    for (k, byte) in job[at..end].iter_mut().enumerate() {
        *byte = s.byte(k);
    }
    Some(length.max(end))
}

// A space or the line's end ends a word.
fn step(job: &mut [u8], s: Said, byte: u8) -> Said
    requires { IfSome s.length (λ n. n ≤ length job.old) }
    ensures { IfSome result.length (λ n. n ≤ length job.new) }
{
    if byte <= b' ' {
        return Said::of(put_word(job, s));
    }
    s.with(byte)
}

// Makes a job in a buffer of zeros. Answers the job's length, or none where the words are at fault.
pub fn make(job: &mut [u8], words: &[u8]) -> Option<usize>
    ensures { IfSome result (λ n. n ≤ length job.new) }
{
    let mut s = Said::of(Some(0));
    for &byte in words {
        s = step(job, s, byte);
    }
    put_word(job, s)
}
