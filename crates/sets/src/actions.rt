// A set of actions, 16 bits by value.
ghost use Rattle.std.specs.Prelude.{◌≡◌, false, ◌&&◌, ◌||◌, not, ℕ, eqb, ltb};
ghost use Rattle.sets.specs.Sets.{bit};
ghost use Rattle.sets.specs.Lowest.{LowestOf};

#[derive(Clone, Copy, Debug, PartialEq, Eq)]
pub struct ActionSet {
    pub bits: u16,
}

impl ActionSet {
    pub fn none() -> ActionSet
        ensures { (k : ℕ) → bit result.bits k ≡ false }
    {
        ActionSet { bits: 0 }
    }

    // The set with a; a set has no room for an a of 16 or more, and stays as it is.
    pub fn with(self, a: u8) -> ActionSet
        ensures { (k : ℕ) → bit result.bits k ≡ (ltb a 16 && eqb k a || bit self.bits k) }
    {
        if a < 16 {
            ActionSet {
                bits: (1 << a) | self.bits,
            }
        } else {
            self
        }
    }

    // The actions of the set that the other has not.
    pub fn without(self, other: ActionSet) -> ActionSet
        ensures { (k : ℕ) → bit result.bits k ≡ (bit self.bits k && not (bit other.bits k)) }
    {
        ActionSet {
            bits: self.bits & !other.bits,
        }
    }

    // The lowest action of the set.
    pub fn lowest(self) -> Option<u8>
        ensures { LowestOf self.bits result }
    {
        if self.bits == 0 {
            return None;
        }
        Some(u16::trailing_zeros(self.bits) as u8)
    }
}
