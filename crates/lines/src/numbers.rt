// A set of numbers in N bytes: bit i of byte k tells of the number 8·k + i.
ghost use Rattle.std.specs.Prelude.{◌≡◌, ◌||◌, ℕ, ◌/◌, ◌<◌, eqb};
ghost use Rattle.sets.specs.Sets.{bit};
ghost use Rattle.lines.specs.Numbers.{has, Gains};

// The numbers below 8·N, each in the set or not. It may be half a megabyte, so it is lent and never copied.
#[derive(Drop)]
pub struct Bits<const N: usize> {
    pub bytes: [u8; N],
}

// The byte with bit i set.
fn with(byte: u8, i: u8) -> u8
    requires { i < 8 }
    ensures { (k : ℕ) → bit result k ≡ (eqb k i || bit byte k) }
{
    (1 << i) | byte
}

impl<const N: usize> Bits<N> {
    // Puts a number into the set.
    pub fn insert(&mut self, m: usize)
        requires { m / 8 < N }
        ensures { Gains self.old.bytes self.new.bytes (λ j. eqb j m) }
    {
        let at = m / 8;
        self.bytes[at] = with(self.bytes[at], (m % 8) as u8);
    }

    // Whether the set has a number.
    pub fn contains(&self, m: usize) -> bool
        requires { m / 8 < N }
        ensures { result ≡ has self.now.bytes m }
    {
        sets::label::has_proposition(self.bytes[m / 8], (m % 8) as u8)
    }
}
