// A label byte, tested and masked bit by bit: bit i tells of proposition i.
ghost use Rattle.std.specs.Prelude.{◌≡◌, ◌%◌, ◌^◌, ltb};
ghost use Rattle.sets.specs.Sets.{bit};

// Whether proposition i is true in the label.
pub fn has_proposition(label: u8, i: u8) -> bool
    ensures { result ≡ bit label i }
{
    i < 8 && (label >> i) % 2 == 1
}

// Whether the label lies below 2^p: no proposition from p on is true in it.
pub fn lies_below(label: u8, p: u8) -> bool
    ensures { result ≡ ltb label (2 ^ p) }
{
    for i in p..8 {
        if has_proposition(label, i) {
            return false;
        }
    }
    true
}

// The part of the label below 2^p.
pub fn part_below(label: u8, p: u8) -> u8
    ensures { result ≡ label % 2 ^ p }
{
    if p < 8 { label & ((1 << p) - 1) } else { label }
}
