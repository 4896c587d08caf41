// Bytes put into an output, one after the other.
ghost use Rattle.std.specs.Prelude.{◌≡◌, [], ◌∷◌, ◌+◌, ◌≤◌, ◌<◌, length, take, drop};
ghost use Rattle.rules.specs.Retold.{two, patched};

use rules::bytes::put_word_at;
use rules::place::Move;

// Copies n bytes of the job from a place on.
pub fn copy(out: &mut [u8], at: usize, job: &[u8], from: usize, n: usize)
    requires n_in_bounds { at + n ≤ length out.old }
    requires n_in_bounds_2 { from + n ≤ length job.now }
    ensures { out.new ≡ patched out.old at (take n (drop from job.now)) }
{
    out[at..at + n].copy_from_slice(&job[from..from + n]);
}

// Puts an entry of the contents: an offset and a length, of two bytes each, low byte first.
pub fn put_entry(out: &mut [u8], at: usize, offset: usize, size: usize)
    requires at_in_bounds { at + 4 ≤ length out.old }
    requires offset_bound { offset < 65536 }
    requires size_bound { size < 65536 }
    ensures { out.new ≡ patched out.old at (two offset (two size [])) }
{
    put_word_at(out, at, offset as u16);
    put_word_at(out, at + 2, size as u16);
}

// Puts a record's state in two bytes and its action in one.
pub fn put_pair(out: &mut [u8], at: usize, m: Move)
    requires { at + 3 ≤ length out.old }
    ensures { out.new ≡ patched out.old at (two m.state (m.action ∷ [])) }
{
    put_word_at(out, at, m.state);
    out[at + 2] = m.action;
}
