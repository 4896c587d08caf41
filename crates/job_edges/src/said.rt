// What a line has said so far: the word that is being read, and how long the words before it make the job.
ghost use Rattle.std.specs.Prelude.{◌≡◌, ℕ, ◌≤◌, IfSome};

use crate::bytes::{bare, plate, record, tall_bare, tall_plate, tall_record};

// A word is a sign with a number after it, and one before it, which is 0 where it is left out. Before its sign a word has a space for one.
// After its sign it has no number until a digit comes, and where a word before it is at fault, the job has no length.
#[derive(Clone, Copy, Debug, PartialEq, Eq)]
pub struct Said {
    pub sign: u8,
    pub before: u16,
    pub number: Option<u16>,
    pub length: Option<usize>,
}

// A number that is too great for a u16 is too great for all that a word can say, whatever its digits are.
fn with_digit(n: u16, digit: u8) -> u16 {
    n.saturating_mul(10).saturating_add(u16::from(digit))
}

impl Said {
    // Where a word starts.
    pub fn of(length: Option<usize>) -> Said
        ensures { result.length ≡ length }
    {
        Said {
            sign: b' ',
            before: 0,
            number: Some(0),
            length,
        }
    }

    // A word's next byte. A word has one sign.
    pub fn with(self, byte: u8) -> Said
        ensures { (m : ℕ) → IfSome self.length (λ n. n ≤ m) → IfSome result.length (λ n. n ≤ m) }
    {
        if byte.is_ascii_digit() {
            return Said {
                number: Some(with_digit(self.number.unwrap_or(0), byte - b'0')),
                ..self
            };
        }
        if self.sign != b' ' {
            return Said::of(None);
        }
        Said {
            sign: byte,
            before: self.number.unwrap_or(0),
            number: None,
            length: self.length,
        }
    }

    // How many bytes the word puts, or none where it is at fault.
    pub fn count(self) -> Option<u16> {
        let n = self.number?;
        match self.sign {
            b'*' | b'P' | b'B' | b'Z' | b'+' | b'p' | b'b' => Some(n),
            b' ' if n == 0 => Some(0),
            b'=' if n < 256 => Some(1),
            _ => None,
        }
    }

    // Byte k of what the word puts.
    pub fn byte(self, k: usize) -> u8 {
        match self.sign {
            b'=' => (self.number.unwrap_or(0) % 256) as u8,
            b'*' => record(k),
            b'P' => plate(k),
            b'B' => bare(k),
            b'+' => tall_record(k),
            b'p' => tall_plate(k),
            b'b' => tall_bare(k),
            _ => 0,
        }
    }
}
