// The moves of a set, one after the other.
ghost use Rattle.std.specs.Prelude.{◌≤◌};

use lines::says::Moves;

// The first byte of the set from one on that is not 0, or where the set ends.
fn first_filled(bytes: &[u8; 524288], from: usize) -> usize
    requires { from ≤ 524288 }
    ensures { (from ≤ result) × (result ≤ 524288) }
{
    for k in from..524288 {
        if bytes[k] != 0 {
            return k;
        }
    }
    524288
}

/// The moves of a set from one on, in ascending order, each as the number that it has there. Most bytes of the set are 0, and are passed over.
#[derive(Clone, Copy)]
pub struct Said<'a> {
    set: &'a Moves,
    at: usize,
}

impl<'a> Said<'a> {
    /// All moves of the set.
    pub fn of(set: &'a Moves) -> Said<'a> {
        Said { set, at: 0 }
    }
}

impl Iterator for Said<'_> {
    ghost use Rattle.std.specs.Prelude.{◌-◌};
    ghost use Rattle.std.specs.Iterator.{at_most};

    type Item = usize;

    ghost remaining = { λ s. at_most (4194304 - s.at) };

    fn next(&mut self) -> Option<usize> {
        // not by one: the bytes that are 0 are passed over at once
        while self.at < 4194304 {
            let i = self.at;
            if self.set.bytes[i / 8] == 0 {
                self.at = 8 * first_filled(&self.set.bytes, i / 8 + 1);
            } else {
                self.at = i + 1;
                if self.set.contains(i) {
                    return Some(i);
                }
            }
        }
        None
    }
}
